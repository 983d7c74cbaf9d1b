// Text a word at a time. A word is eight bytes of text as one number, the first byte lowest; the tables hold
// words of digits and columns.
#![tactic(auto)]

pub mod head;

ghost use Rattle.std.specs.Prelude.{◌≡◌, [], ◌∷◌, ◌++◌, ◌+◌, ◌≤◌, ◌<◌, length};
ghost use Rattle.lines.specs.Number.{hexadecimal};
ghost use Rattle.tables.specs.Word.{bytes, word_of, padded, spaced, Tables};
ghost use Rattle.columns.specs.Wrote.{Wrote};

use tables::{
    COLUMNS, FIRST_DIGITS, FIRST_TRIPLES, FOURTH_DIGITS, LAST_PAIRS, LENGTHS, NEXT_TRIPLES,
    SECOND_DIGITS, THIRD_DIGITS,
};

// The eight bytes of a word.
pub fn put(word: u64, out: &mut [u8], at: usize)
    requires { at + 8 ≤ length out.old }
    ensures { Wrote out.old at (bytes 8 word) out.new (at + 8) }
{
    out[at..at + 8].copy_from_slice(&word.to_le_bytes());
}

// The first bytes of a word, `count` of them; all eight are put.
pub fn put_first(word: u64, count: usize, out: &mut [u8], at: usize) -> usize
    requires { (count ≤ 8) × (at + 8 ≤ length out.old) }
    ensures wrote { Wrote out.old at (bytes count word) out.new result }
    ensures value { result ≡ at + count }
{
    put(word, out, at);
    at + count
}

// A column and a space.
pub fn column(tables: &[u64], k: usize, out: &mut [u8], at: usize) -> usize
    requires { Tables tables.now × (k ≤ 255) × (at + 8 ≤ length out.old) }
    ensures wrote { Wrote out.old at (spaced k) out.new result }
    ensures upper_bound { result ≤ at + 4 }
{
    put(tables[COLUMNS + k], out, at);
    at + tables[LENGTHS + k] as usize
}

// The word of a number's eight decimal digits.
pub fn eight_digits(tables: &[u64], n: u32) -> u64
    requires { Tables tables.now × (n < 100000000) }
    ensures { result ≡ word_of (padded 8 n) }
{
    let high = n / 10_000;
    let low = n - high * 10_000;
    let first = high / 100;
    let second = high - first * 100;
    let third = low / 100;
    let fourth = low - third * 100;
    tables[FIRST_DIGITS + first as usize]
        + tables[SECOND_DIGITS + second as usize]
        + tables[THIRD_DIGITS + third as usize]
        + tables[FOURTH_DIGITS + fourth as usize]
}

// The word of a number's eight hexadecimal digits.
pub fn eight_hexadecimal(tables: &[u64], n: u32) -> u64
    requires { Tables tables.now }
    ensures { result ≡ word_of (hexadecimal 8 n) }
{
    tables[FIRST_TRIPLES + (n >> 20) as usize]
        + tables[NEXT_TRIPLES + ((n >> 8) % 4096) as usize]
        + tables[LAST_PAIRS + (n % 256) as usize]
}

// Sixteen hexadecimal digits, and a byte after them.
pub fn sixteen_hexadecimal(
    tables: &[u64],
    bits: u64,
    often_zeros: bool,
    after: u8,
    out: &mut [u8],
    at: usize,
) -> usize
    requires { Tables tables.now × (at + 17 ≤ length out.old) }
    ensures wrote { Wrote out.old at (hexadecimal 16 bits ++ (after ∷ [])) out.new result }
    ensures value { result ≡ at + 17 }
{
    put(eight_hexadecimal(tables, (bits >> 32) as u32), out, at);
    let low = (bits % 0x1_0000_0000) as u32;
    put(last_eight(tables, low, often_zeros), out, at + 8);
    out[at + 16] = after;
    at + 17
}

// The word of eight digits. Where they are often zeros a test for that comes first.
fn last_eight(tables: &[u64], n: u32, often_zeros: bool) -> u64
    requires { Tables tables.now }
    ensures { result ≡ word_of (hexadecimal 8 n) }
{
    if often_zeros {
        if n == 0 {
            return 0x3030_3030_3030_3030;
        }
    }
    eight_hexadecimal(tables, n)
}
