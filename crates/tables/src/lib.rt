// Tables of words. A word is eight bytes of text as one number, the first byte lowest. The tables are
// filled once, and lent to `row_lines`.
#![tactic(auto)]

ghost use Rattle.std.specs.Prelude.{◌≡◌, ℕ, ◌+◌, ◌*◌, ◌/◌, ◌≤◌, ◌<◌, length, slice_index};
ghost use Rattle.columns.specs.Columns.{table_from};
ghost use Rattle.columns.specs.Wrote.{Wrote};
ghost use Rattle.lines.specs.Number.{glyph as glyph_of};
ghost use Rattle.tables.specs.Word.{pair, triple, spaced, word_of, Holds, Tables};

// Where the parts stand. Eight hexadecimal digits are three, three and two of them: words of each three as
// the first and as the next, and of each pair as the last. Eight decimal digits are four pairs.
pub const LAST_PAIRS: usize = 256;

pub const FIRST_DIGITS: usize = 512;

pub const SECOND_DIGITS: usize = 612;

pub const THIRD_DIGITS: usize = 712;

pub const FOURTH_DIGITS: usize = 812;
// Each column with a space after it, and how long that is.
pub const COLUMNS: usize = 912;

pub const LENGTHS: usize = 1168;

pub const FIRST_TRIPLES: usize = 1424;

pub const NEXT_TRIPLES: usize = 5520;

pub const SIZE: usize = 9616;

// Room for a table.
pub fn space() -> [u64; SIZE]
    ensures { 9616 ≡ length result }
{
    [0; SIZE]
}

// Fills a lent table.
pub fn fill(table: &mut [u64])
    requires { length table.old ≡ 9616 }
    ensures { Tables table.new }
{
    pairs(16, 0x1, table, 0);
    pairs(16, 0x1_0000_0000_0000, table, LAST_PAIRS);
    pairs(10, 0x1, table, FIRST_DIGITS);
    pairs(10, 0x1_0000, table, SECOND_DIGITS);
    pairs(10, 0x1_0000_0000, table, THIRD_DIGITS);
    pairs(10, 0x1_0000_0000_0000, table, FOURTH_DIGITS);
    columns(table);
    lengths(table);
    let (pairs, triples) = table.split_at_mut(FIRST_TRIPLES);
    let (first, next) = triples.split_at_mut(NEXT_TRIPLES - FIRST_TRIPLES);
    first_triples(pairs, first);
    next_triples(first, next);
}

// The pairs of digits in a base, at one place of a word.
fn pairs(base: u64, place: u64, table: &mut [u64], at: usize)
    requires { (1 < base) × (base ≤ 16) × (place ≤ 281474976710656) × (at + base * base ≤ length table.old) }
    ensures { Wrote table.old at (table_from (base * base) 0 (λ k. pair base k * place)) table.new (at + base * base) }
{
    let end = at + (base * base) as usize;
    fill_by(
        &mut table[at..end],
        |k|
            requires { (1 < base) × (base ≤ 16) × (place ≤ 281474976710656) × (k < base * base) }
            ensures { result ≡ pair base k * place }
        { (glyph(k / base) + 256 * glyph(k % base)) * place },
    );
}

fn columns(table: &mut [u64])
    requires { length table.old ≡ 9616 }
    ensures { Wrote table.old 912 (table_from 256 0 (λ k. word_of (spaced k))) table.new 1168 }
{
    fill_by(&mut table[COLUMNS..LENGTHS], short);
}

fn lengths(table: &mut [u64])
    requires { length table.old ≡ 9616 }
    ensures { Wrote table.old 1168 (table_from 256 0 (λ k. length (spaced k))) table.new 1424 }
{
    fill_by(&mut table[LENGTHS..FIRST_TRIPLES], short_length);
}

// Each three hexadecimal digits: the pair of the first two, and the third.
fn first_triples(pairs: &[u64], triples: &mut [u64])
    requires { (256 ≤ length pairs.now) × Holds pairs.now 0 256 (λ k. pair 16 k * 1) × (length triples.old ≡ 4096) }
    ensures { triples.new ≡ table_from 4096 0 triple }
{
    fill_by(
        triples,
        |k|
            requires { (k < 4096) × (k / 16 < length pairs.now) × (slice_index pairs.now (k / 16) ≡ pair 16 (k / 16)) }
            ensures { result ≡ triple k }
        { pairs[(k / 16) as usize] + 0x1_0000 * glyph(k % 16) },
    );
}

// The same, three bytes on.
fn next_triples(first: &[u64], triples: &mut [u64])
    requires { (first.now ≡ table_from 4096 0 triple) × (length triples.old ≡ 4096) }
    ensures { triples.new ≡ table_from 4096 0 (λ k. triple k * 16777216) }
{
    fill_by(
        triples,
        |k|
            requires { (k < 4096) × (k < length first.now) × (slice_index first.now k ≡ triple k) }
            ensures { result ≡ triple k * 16777216 }
        { first[k as usize] * 0x100_0000 },
    );
}

// Fills a part, each place by its number there.
fn fill_by<F: Fn(u64) -> u64>(part: &mut [u64], word: F)
    requires { (k : ℕ) → k < length part.old → F.pre word k }
    ensures { (k : ℕ) → k < length part.old → F.post word k (slice_index part.new k) }
{
    for (k, place) in part.iter_mut().enumerate() {
        *place = word(k as u64);
    }
}

// A number below 10,000 and a space, as a word.
pub fn short(n: u64) -> u64
    requires { n < 10000 }
    ensures { result ≡ word_of (spaced n) }
{
    let last = glyph(n % 10) + 256 * 32;
    if n < 10 {
        return last;
    }
    let two = glyph(n / 10 % 10) + 256 * last;
    if n < 100 {
        return two;
    }
    let three = glyph(n / 100 % 10) + 256 * two;
    if n < 1000 {
        return three;
    }
    glyph(n / 1000) + 256 * three
}

// How long that is.
pub fn short_length(n: u64) -> u64
    requires { n < 10000 }
    ensures { result ≡ length (spaced n) }
{
    if n < 10 {
        return 2;
    }
    if n < 100 {
        return 3;
    }
    if n < 1000 {
        return 4;
    }
    5
}

// `0` to `9`, then `a` to `f`.
fn glyph(digit: u64) -> u64
    requires { digit < 16 }
    ensures { (result ≡ glyph_of digit) × (result < 128) }
{
    if digit < 10 {
        return 48 + digit;
    }
    87 + digit
}
