// How far a wall file has been taken, and what is due next. `due` and `width` are operations: they answer
// every input.
#![tactic(auto)]

ghost use Rattle.std.specs.Prelude.{◌≡◌, cond, ◌≤◌};
ghost use Rattle.stages.specs.Fit.{passes, due_of, width_of, place_fits, wall_fits};

use settings::Settings;

// How far a file has been taken.
#[derive(Clone, Copy)]
pub struct Place {
    pub settings: Settings,
    // The last row accepted.
    pub row: u64,
    // The bytes taken.
    pub offset: u64,
}

// What is due next.
#[derive(Clone, Copy)]
pub enum Wall {
    // The settings.
    New,
    // Row 0.
    Start(Place),
    // The next row.
    Row(Place),
    // The end of the file.
    End(Place),
    // Nothing: the file has ended, or is turned away.
    Over,
}

// The most bytes of a file that a step can take in account.
pub const OFFSET_MOST: u64 = 4_294_967_295;

impl Wall {
    // How many bytes the next step is given, fewer only where the file ends.
    #[tactic(auto, using(crate::proofs::Laws::narrow, contents::proofs::Laws::Contents::row_small), unfolding(crate::specs::Fit::due_of, crate::specs::Fit::due_size))]
    pub fn due(self) -> usize
        ensures due { result ≡ due_of self }
        ensures few { result ≤ 7734 }
    {
        match self {
            Wall::New => 27,
            Wall::Start(place) => {
                if place.passes() {
                    3 + 8 * place.settings.width as usize
                } else {
                    0
                }
            }
            Wall::Row(place) => {
                if place.passes() {
                    row_fields::size(place.settings.width as usize)
                } else {
                    0
                }
            }
            Wall::End(_) => 1,
            Wall::Over => 0,
        }
    }

    // How many times the wall's row has; none before its settings are taken.
    #[tactic(auto, unfolding(crate::specs::Fit::width_of))]
    pub fn width(self) -> usize
        ensures width { result ≡ width_of self }
        ensures few { result ≤ 256 }
    {
        match self {
            Wall::Start(place) | Wall::Row(place) | Wall::End(place) => place.width(),
            Wall::New | Wall::Over => 0,
        }
    }
}

impl Place {
    // Whether the settings pass, checked again.
    fn passes(self) -> bool
        ensures { result ≡ passes self }
    {
        self.settings.check().is_ok()
    }

    #[tactic(auto, using(crate::proofs::Laws::narrow))]
    fn width(self) -> usize
        ensures width { result ≡ cond (passes self) self.settings.width 0 }
        ensures few { result ≤ 256 }
    {
        if self.passes() {
            self.settings.width as usize
        } else {
            0
        }
    }

    // Whether the place is one that steps leave, and the row is its wall's.
    #[tactic(auto, unfolding(crate::specs::Fit::place_fits))]
    fn fits(self, row: usize) -> bool
        ensures { result ≡ place_fits self row }
    {
        self.passes()
            && row as u64 == self.settings.width
            && self.row <= self.settings.rows
            && self.offset <= OFFSET_MOST
    }
}

// Whether a row that is lent is as long as the wall is wide.
#[tactic(auto, unfolding(crate::specs::Fit::wall_fits))]
pub fn fits(wall: Wall, row: usize) -> bool
    ensures { result ≡ wall_fits wall row }
{
    match wall {
        Wall::Start(place) | Wall::Row(place) | Wall::End(place) => place.fits(row),
        Wall::New | Wall::Over => true,
    }
}
