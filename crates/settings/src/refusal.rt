// Why a call or a file is turned away. Each refusal has its number in docs/NUMBERS.md.
ghost use Rattle.std.specs.Prelude.{◌≡◌};
ghost use Rattle.settings.specs.Refusal.{number};

#[derive(Clone, Copy, Debug, PartialEq, Eq)]
pub enum Refusal {
    // Settings: W, R, d, u, A, r or h is outside its range.
    Width = 1,
    Rows = 2,
    Delay = 3,
    Uncertainty = 4,
    Hold = 5,
    Drift = 6,
    Unit = 7,
    // h is less than u + c + 2.
    UnitCost = 8,
    // A is less than 16h.
    UnitsHeld = 9,
    // A tile: other than two or three neighbours.
    Neighbours = 11,
    // A stamp that is no reading up to the latest.
    Stamp = 12,
    // More than one silent sender.
    Silences = 13,
    // A row: something lent has another length than the row's.
    Lengths = 21,
    // A mark past the last column.
    StrayMark = 22,
    // A correct tile's time that is too late.
    LateTime = 23,
    // A tile with two faulty senders.
    Crowded = 24,
    // A tile's drift over the limit.
    TileDrift = 25,
    // A link value out of its range.
    Link = 26,
    // A seam: a correct tile's time that is too late.
    LateSide = 31,
    // A file: another tag than the one due.
    Tag = 41,
    // Another length than the one due.
    Size = 42,
    // The file stops inside the field due.
    Short = 43,
    // It goes on after its last field.
    GoesOn = 44,
    // A time of row 0 that is too late.
    LateStart = 45,
    // Last waves: other than 1 to 64 of them.
    Waves = 51,
    // No closed wave is held.
    NoGap = 52,
    // A row: a tile's phase over its limit.
    Phase = 53,
    // A running tile: none of its senders.
    Sender = 54,
}

impl Refusal {
    pub fn number(self) -> u32
        ensures { result ≡ number self }
    {
        self as u32
    }
}
