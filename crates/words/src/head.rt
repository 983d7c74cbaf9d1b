// What the lines of a row begin with: a letter, the row, and a space after each.
ghost use Rattle.std.specs.Prelude.{◌≡◌, ◌∷◌, ◌≤◌, ◌<◌};
ghost use Rattle.lines.specs.Line.{space};
ghost use Rattle.tables.specs.Word.{bytes, spaced};

use tables::{short, short_length};

// As a word, of which the first `length` bytes are the text.
#[derive(Clone, Copy)]
pub struct Head {
    pub word: u64,
    pub length: usize,
}

impl Head {
    pub fn of(letter: u64, row: u64) -> Head
        requires { (letter < 256) × (row ≤ 1024) }
        ensures { (bytes result.length result.word ≡ letter ∷ space ∷ spaced row) × (result.length ≤ 7) }
    {
        Head {
            word: letter + 256 * (32 + 256 * short(row)),
            length: 2 + short_length(row) as usize,
        }
    }
}
