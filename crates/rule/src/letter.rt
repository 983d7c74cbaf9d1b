// Which part of the rule fixed a pulse, and its letter.
ghost use Rattle.std.specs.Prelude.{◌≡◌};
ghost use Rattle.rule.specs.Letter.{byte_of};

#[derive(Clone, Copy)]
pub enum Letter {
    // P is own's stamp.
    Kept = b'k' as isize,
    // Own is early, and waits for the earliest neighbour less 3h.
    Early = b'e' as isize,
    // The middle of the neighbours decides.
    Middle = b'm' as isize,
    // Own is late, and is put back by J.
    Back = b'b' as isize,
    // Own is later than that, or silent: the latest neighbour and 3h.
    Late = b'l' as isize,
}

impl Letter {
    // The letter in ASCII.
    pub fn byte(self) -> u8
        ensures { result ≡ byte_of self }
    {
        self as u8
    }
}
