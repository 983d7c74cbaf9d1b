// The letters that a call leaves.

// Whether the first six are the characters of a number, the first of them its highest byte, and dashes
// stand after them.
pub fn are(letters: &[u8; 1024], expected: u64) -> bool {
    match expected.to_be_bytes() {
        [0, 0, a, b, c, d, e, f] => {
            letters[..6] == [a, b, c, d, e, f]
                && letters[6..256].iter().all(|letter| *letter == b'-')
        }
        _ => false,
    }
}
