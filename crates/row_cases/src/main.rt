// Runs rows through the row operation, as the file `stdin` lists them: faulty senders that are early,
// late and silent at the columns of either end, for several widths, with phases and without (§E4.1), a
// call for each number and the order between them, and one at each tie between two letters (§E3.1).
#![tactic(auto)]

mod letters;
mod plan;

ghost use Rattle.std.specs.Prelude.{◌≤◌};

use cases::Case;
use plan::{Lent, Outcome, plan};
use row_inputs::{Call, FaultyRow, Inputs};
use std::io;
use std::io::Write;

fn main(rt: HostRuntime) -> io::Result<()> {
    cases::run(&rt, |out, case| write(out, case))
}

// Writes what a row with a faulty tile came to, or whether a call came out.
fn write(out: &mut impl Write, case: &Case<'_>) -> io::Result<()> {
    match (case.kind, case.numbers) {
        (b'f', [width, column, arrival, step])
            if *width <= 256 && *column < *width && *step < 1_000_000 => {
            let row = FaultyRow {
                width: *width,
                column: *column,
                arrival: *arrival,
                step: *step,
            };
            write_row(out, case, *width as usize, &Inputs::from(row))
        }
        (b'p', numbers) => case.report(out, right(numbers)),
        _ => case.report(out, false),
    }
}

// Writes the earliest and latest time, the digest and the letters of a row.
fn write_row(out: &mut impl Write, case: &Case<'_>, width: usize, inputs: &Inputs) -> io::Result<()>
    requires { width ≤ 256 }
{
    let given = plan(width as u64, inputs, Lent::of_width(width), 0);
    match given.answer {
        Ok(ends) => {
            case.write_label(out)?;
            write!(
                out,
                " from {} to {} {} ",
                ends.earliest,
                ends.latest,
                digest(&given.row)
            )?;
            out.write_all(&given.letters[..width])?;
            out.write_all(b"\n")
        }
        Err(_) => case.report(out, false),
    }
}

// A number that changes with any time and its place.
fn digest(row: &[u64; 1024]) -> u64 {
    let mut digest: u64 = 0;
    for (c, time) in row[..256].iter().enumerate() {
        digest = (digest * 31 + *time % 65_537 + c as u64) % 4_294_967_291;
    }
    digest
}

// Whether a call is turned away with the number that a case gives, and leaves the sevens that the row held,
// or is accepted where that is 0, and leaves the letters that are given.
fn right(numbers: &[u64]) -> bool {
    let Some((lengths, rest)) = numbers.split_first_chunk::<7>() else {
        return false;
    };
    let Some(lent) = Lent::of_case(*lengths) else {
        return false;
    };
    let [
        time,
        time_3,
        marks_0,
        drift_5,
        phase_5,
        link_0,
        link_19,
        number,
        letters,
    ] = rest
    else {
        return false;
    };
    let (Ok(marks_0), Ok(drift_5), Ok(phase_5)) = (
        u8::try_from(*marks_0),
        u32::try_from(*drift_5),
        u32::try_from(*phase_5),
    ) else {
        return false;
    };
    let call = Call {
        time: *time,
        time_3: *time_3,
        marks_0,
        drift_5,
        phase_5,
        link_0: *link_0,
        link_19: *link_19,
    };
    let given = plan(6, &Inputs::from(call), lent, 7);
    let sevens = given.row[..256].iter().all(|time| *time == 7);
    let turned_away = match given.answer {
        Ok(_) => 0,
        Err(refusal) => u64::from(refusal.number()),
    };
    turned_away == *number && sevens == (*number != 0) && letters::are(&given.letters, *letters)
}
