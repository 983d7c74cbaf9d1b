// What a case hands to the row operation, made from a few numbers.
#![tactic(auto)]

ghost use Rattle.std.specs.Prelude.{◌≡◌, ◌+◌, ◌*◌, ◌%◌, ◌≤◌, ◌<◌, slice_index, EachIndex};

use std::array;

// A case lends as much of each from the front as it says.
#[derive(Clone, Copy)]
pub struct Inputs {
    pub times: [u64; 1024],
    pub marks: [u8; 1024],
    pub drifts: [u32; 1024],
    pub phases: [u32; 1024],
    // The link values, tile after tile.
    pub links: [u64; 1024],
}

// A row of up to 256 tiles, one of which is faulty.
#[derive(Clone, Copy)]
pub struct FaultyRow {
    pub width: u64,
    // The faulty tile's column.
    pub column: u64,
    // When all its pulses arrive.
    pub arrival: u64,
    // By how much a tile's phase is above that of the tile before it.
    pub step: u64,
}

// A call, in which all values of a kind are the same but for these.
#[derive(Clone, Copy)]
pub struct Call {
    pub time: u64,
    pub time_3: u64,
    // The first byte of marks.
    pub marks_0: u8,
    pub drift_5: u32,
    pub phase_5: u32,
    pub link_0: u64,
    pub link_19: u64,
}

impl From<FaultyRow> for Inputs {
    ghost from_gives = { λ row inputs. EachIndex inputs.times (λ c. slice_index inputs.times c ≡ 1000000 + c * 37 % 101) × EachIndex inputs.drifts (λ c. slice_index inputs.drifts c ≡ c * 13 % 101) };

    // Times that step up and down along the row, drifts and phases that step up within a range, and delays
    // that differ, with the arrival where the sender is faulty.
    fn from(row: FaultyRow) -> Inputs {
        let mut inputs = Inputs {
            times: array::from_fn(|c| 1_000_000 + c as u64 * 37 % 101),
            marks: [0; 1024],
            drifts: array::from_fn(|c| (c as u64 * 13 % 101) as u32),
            phases: [0; 1024],
            links: [0; 1024],
        };
        mark(&mut inputs.marks, row.column);
        step_up(&mut inputs.phases, row.step % 1_000_000);
        connect(
            &mut inputs.links,
            row.width.min(256),
            row.column,
            row.arrival,
        );
        inputs
    }
}

impl From<Call> for Inputs {
    ghost from_gives = { λ call inputs. (slice_index inputs.times 3 ≡ call.time_3) × (slice_index inputs.marks 0 ≡ call.marks_0) × (slice_index inputs.drifts 5 ≡ call.drift_5) × (slice_index inputs.phases 5 ≡ call.phase_5) × (slice_index inputs.links 0 ≡ call.link_0) × (slice_index inputs.links 19 ≡ call.link_19) };

    fn from(call: Call) -> Inputs {
        let mut inputs = Inputs {
            times: [call.time; 1024],
            marks: [0; 1024],
            drifts: [0; 1024],
            phases: [0; 1024],
            links: [1000; 1024],
        };
        inputs.times[3] = call.time_3;
        inputs.marks[0] = call.marks_0;
        inputs.drifts[5] = call.drift_5;
        inputs.phases[5] = call.phase_5;
        inputs.links[0] = call.link_0;
        inputs.links[19] = call.link_19;
        inputs
    }
}

// Marks one column.
fn mark(marks: &mut [u8; 1024], column: u64) {
    if let Some(byte) = marks.get_mut((column / 8) as usize) {
        *byte = 1 << (column % 8);
    }
}

// As many phases as the widest row has.
fn step_up(phases: &mut [u32; 1024], step: u64)
    requires { step < 1000000 }
{
    for (c, phase) in phases[..256].iter_mut().enumerate() {
        *phase = (c as u64 * step % 1_000_000) as u32;
    }
}

// As many link values as a row of the width has.
fn connect(links: &mut [u64; 1024], width: u64, column: u64, arrival: u64)
    requires { width ≤ 256 }
{
    let faulty = column.saturating_add(3);
    for (at, link) in links[..3 * width as usize + 2].iter_mut().enumerate() {
        *link = if sender(width, at as u64) == faulty {
            arrival
        } else {
            990 + at as u64 % 11 * 7 % 11
        };
    }
}

// Three more than the column of the tile that a link value is of. The first two columns and the last two
// hear the three tiles at their end, the third from an end the four there, and a column between them
// its neighbours and itself.
fn sender(width: u64, at: u64) -> u64
    requires { (width ≤ 256) × (at < 1024) }
{
    if at < 6 {
        at % 3 + 3
    } else if at < 10 {
        at - 3
    } else if at + 5 < 3 * width {
        (at + 2) / 3 + (at + 2) % 3 + 1
    } else if at + 5 == 3 * width {
        width + 2
    } else {
        width + (at + 1) % 3
    }
}
