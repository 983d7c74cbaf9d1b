// A step of a wall file, by the words of layout.
#![tactic(auto)]

ghost use Rattle.std.specs.Prelude.{◌≡◌};
ghost use Rattle.row.specs.Row.{pulses};
ghost use Rattle.wall_calls.specs.Answers.{step_answer, next_left, step_number, wall_left, offset_left};

use layout::{UNFIT, place_in, refused_number, refused_words, takes, wall_in, wall_words};

// Takes the due part of a wall file. A file that is turned away is turned away again, whatever it is given: its words hold the number,
// which the C interface leaves to whoever wrote them.
#[tactic(auto, unfolding(crate::specs::Answers::step_answer, crate::specs::Answers::stepped, crate::specs::Answers::away, crate::specs::Answers::next_left, crate::specs::Answers::step_number, crate::specs::Answers::wall_left, crate::specs::Answers::offset_left))]
pub fn step(
    wall: &mut [u64; 10],
    part: &[u8],
    row: &[u64],
    next: &mut [u64],
    letters: &mut [u8],
    offset: &mut u64,
) -> u32
    ensures number { result ≡ step_number (step_answer wall.old part.now row.now (pulses next.old letters.old)) }
    ensures wall { wall.new ≡ wall_left (step_answer wall.old part.now row.now (pulses next.old letters.old)) wall.old }
    ensures next { pulses next.new letters.new ≡ next_left wall.old part.now row.now (pulses next.old letters.old) }
    ensures offset { offset.new ≡ offset_left (step_answer wall.old part.now row.now (pulses next.old letters.old)) offset.old }
{
    let number = refused_number(wall);
    if number != 0 {
        *offset = wall[9];
        return number;
    }
    if !takes(wall, part.len()) {
        return UNFIT;
    }
    let place = place_in(wall);
    match steps::take(wall_in(wall), part, row, next, letters) {
        Some(Ok(after)) => {
            *wall = wall_words(after, place);
            0
        }
        Some(Err(refused)) => {
            let number = refused.refusal.number();
            *wall = refused_words(number, refused.offset, place);
            *offset = refused.offset;
            number
        }
        None => UNFIT,
    }
}
