// What a call writes to what it is lent, by the operation's answer, and the number that it answers. A refusal
// leaves everything as it was.
#![tactic(auto)]

ghost use Rattle.std.specs.Prelude.{◌≡◌, get_or};
ghost use Rattle.settings.specs.Refusal.{number_in};
ghost use Rattle.reach.specs.Survey.{surveyed_of};
ghost use Rattle.calls.specs.Answers.{forwarded_words, ends_words, range_words, columns_words, left, left_within, number_within, side_left, halves_left, survey_number, survey_left, row_seam_number, row_seam_columns, row_seam_side, row_seam_halves, wide_found, wide_left};

use layout::UNFIT;
use places::seams::{Columns, RowSeam};
use reach::Range;
use row::Ends;
use seam::Seam;
use settings::Settings;
use settings::refusal::Refusal;
use tile::Forwarded;
use wide::Wide;

// What the C interface writes of what an operation gives.
pub trait Words {
    type Lent: Drop;

    ghost words: { Self → Self.Lent };

    fn words(self) -> Self::Lent
        ensures { result ≡ words self };
}

// P, the correction, whether there is one, and the letter.
impl Words for Forwarded {
    type Lent = [i64; 4];

    ghost words = { forwarded_words };

    fn words(self) -> [i64; 4] {
        let byte = i64::from(self.letter.byte());
        match self.correction {
            Some(correction) => [self.p, correction, 1, byte],
            None => [self.p, 0, 0, byte],
        }
    }
}

// The earliest and the latest time.
impl Words for Ends {
    type Lent = [u64; 2];

    ghost words = { ends_words };

    fn words(self) -> [u64; 2] {
        [self.earliest, self.latest]
    }
}

// The ticks, and the first and the last column.
impl Words for Range {
    type Lent = [u64; 3];

    ghost words = { range_words };

    fn words(self) -> [u64; 3] {
        [self.ticks, self.first, self.last]
    }
}

// The left and the right column.
impl Words for Columns {
    type Lent = [u64; 2];

    ghost words = { columns_words };

    fn words(self) -> [u64; 2] {
        [self.left, self.right]
    }
}

// B, or a link's place.
impl Words for u64 {
    type Lent = u64;

    ghost words = { λ n. n };

    fn words(self) -> u64 {
        self
    }
}

// Whether a column is marked.
impl Words for bool {
    type Lent = bool;

    ghost words = { λ b. b };

    fn words(self) -> bool {
        self
    }
}

// Writes what an operation gives.
#[tactic(auto, unfolding(settings::specs::Refusal::number_in, crate::specs::Answers::left))]
pub fn left<T: Words>(answer: Result<T, Refusal>, lent: &mut T::Lent) -> u32
    ensures number { result ≡ number_in answer }
    ensures lent { lent.new ≡ left T.words answer lent.old }
{
    match answer {
        Ok(given) => {
            *lent = given.words();
            0
        }
        Err(refusal) => refusal.number(),
    }
}

// The same where what it gives may lie outside.
#[tactic(auto, unfolding(crate::specs::Answers::number_within, crate::specs::Answers::left_within))]
pub fn left_within<T: Words>(answer: Result<Option<T>, Refusal>, lent: &mut T::Lent) -> u32
    ensures number { result ≡ number_within answer }
    ensures lent { lent.new ≡ left_within T.words answer lent.old }
{
    match answer {
        Ok(Some(given)) => {
            *lent = given.words();
            0
        }
        Ok(None) => UNFIT,
        Err(refusal) => refusal.number(),
    }
}

// Writes the side of a seam, and its halves where it is closed.
#[tactic(auto, unfolding(settings::specs::Refusal::number_in, crate::specs::Answers::side_left, crate::specs::Answers::halves_left))]
pub fn seam_left(seam: Result<Seam, Refusal>, side: &mut u32, halves: &mut [f64; 2]) -> u32
    ensures number { result ≡ number_in seam }
    ensures side { side.new ≡ side_left seam side.old }
    ensures halves { halves.new ≡ halves_left seam halves.old }
{
    match seam {
        Ok(Seam::Closed(made)) => {
            *side = 0;
            *halves = [made.midpoint, made.half_gap];
            0
        }
        Ok(Seam::Open(open)) => {
            *side = layout::side(open);
            0
        }
        Err(refusal) => refusal.number(),
    }
}

// The row that is due next, B of this one and the largest reach.
#[tactic(auto, unfolding(crate::specs::Answers::number_within, crate::specs::Answers::left_within, crate::specs::Answers::survey_number, crate::specs::Answers::survey_left))]
pub fn survey_row(settings: Settings, row: &[u64], survey: &mut [u64; 3]) -> u32
    ensures number { result ≡ survey_number (surveyed_of settings (get_or survey.old 0 0) (get_or survey.old 2 0) row.now) }
    ensures survey { survey.new ≡ survey_left (surveyed_of settings (get_or survey.old 0 0) (get_or survey.old 2 0) row.now) survey.old }
{
    let due = survey[0];
    match reach::survey::survey(settings, due, survey[2], row) {
        Ok(Some(surveyed)) => {
            *survey = [due + 1, surveyed.gap, surveyed.largest];
            0
        }
        Ok(None) => UNFIT,
        Err(refusal) => refusal.number(),
    }
}

// The columns of a seam, its side, and its halves where it is closed.
#[tactic(auto, unfolding(crate::specs::Answers::left, crate::specs::Answers::row_seam_number, crate::specs::Answers::row_seam_columns, crate::specs::Answers::row_seam_side, crate::specs::Answers::row_seam_halves))]
pub fn row_seam_left(
    found: Result<Option<RowSeam>, Refusal>,
    columns: &mut [u64; 2],
    side: &mut u32,
    halves: &mut [f64; 2],
) -> u32
    ensures number { result ≡ row_seam_number found }
    ensures columns { columns.new ≡ row_seam_columns found columns.old }
    ensures side { side.new ≡ row_seam_side found side.old }
    ensures halves { halves.new ≡ row_seam_halves found halves.old }
{
    match found {
        Ok(Some(of)) => {
            if of.seam.is_ok() {
                *columns = [of.left, of.right];
            }
            seam_left(of.seam, side, halves)
        }
        Ok(None) => UNFIT,
        Err(refusal) => refusal.number(),
    }
}

// Whether there is a wide seam, and then its columns and its half gap in half ticks.
#[tactic(auto, unfolding(settings::specs::Refusal::number_in, crate::specs::Answers::left_within, crate::specs::Answers::wide_found, crate::specs::Answers::wide_left))]
pub fn first_wide_left(
    first: Result<Option<Wide>, Refusal>,
    found: &mut bool,
    wide: &mut [u64; 3],
) -> u32
    ensures number { result ≡ number_in first }
    ensures found { found.new ≡ wide_found first found.old }
    ensures wide { wide.new ≡ wide_left first wide.old }
{
    match first {
        Ok(Some(seam)) => {
            *found = true;
            *wide = [seam.left, seam.right, seam.half_ticks];
            0
        }
        Ok(None) => {
            *found = false;
            0
        }
        Err(refusal) => refusal.number(),
    }
}
