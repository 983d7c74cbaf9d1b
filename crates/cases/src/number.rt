// A number as cases write it: decimal digits, or an x and hexadecimal digits. One with a '-' before
// its digits is given as its 64 bits. A quote and up to eight characters are the number that their
// bytes make, the first of them the highest.
ghost use Rattle.std.specs.Prelude.{◌<◌, IfSome};

// The number of a word, or none where it is no number or 64 bits don't hold it.
pub fn read(word: &[u8]) -> Option<u64> {
    match word {
        [b'x', _, ..] => spelt(&word[1..], 16, |byte| digit(byte, 16)),
        [b'-', _, ..] => Some(spelt(&word[1..], 10, |byte| digit(byte, 10))?.wrapping_neg()),
        [b'\'', _, ..] => spelt(&word[1..], 256, |byte| Some(u64::from(byte))),
        _ => spelt(word, 10, |byte| digit(byte, 10)),
    }
}

// The number that bytes spell in a base, by what each stands for.
fn spelt<F: Fn(u8) -> Option<u64>>(word: &[u8], base: u64, digit: F) -> Option<u64>
    requires { F.IsAlwaysCallable digit }
{
    word.iter().try_fold(0u64, |value, byte| {
        value.checked_mul(base)?.checked_add(digit(*byte)?)
    })
}

// What a digit stands for.
fn digit(byte: u8, base: u64) -> Option<u64>
    ensures { IfSome result (λ value. (value < base) × (value < 256)) }
{
    let value = match byte {
        b'0'..=b'9' => byte - b'0',
        b'a'..=b'f' => byte - b'a' + 10,
        _ => return None,
    };
    Some(u64::from(value)).filter(|value| *value < base)
}
