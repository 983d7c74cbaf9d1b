// The two fields of a row, its marks and its tiles, and the row that they describe.
#![tactic(auto)]

ghost use Rattle.std.specs.Prelude.{◌≡◌, ◌+◌, ◌*◌, ◌≤◌, length};
ghost use Rattle.contents.specs.Contents.{row_size};
ghost use Rattle.row.specs.Row.{pulses};
ghost use Rattle.row_fields.specs.Worked.{Plannable, WorkedOut};

use settings::Settings;
use settings::refusal::Refusal;

// Works out the row that tags 3 and 4 describe, or answers why it is turned away. `links` is room for its link values.
pub fn plan(
    settings: Settings,
    part: &[u8],
    before: &[u64],
    links: &mut [u64],
    times: &mut [u64],
    letters: &mut [u8],
) -> Result<(), Refusal>
    requires { Plannable settings part.now (length before.now) (length times.old) (length letters.old) × (770 ≤ length links.old) }
    ensures { WorkedOut settings part.now before.now (pulses times.old letters.old) result (pulses times.new letters.new) }
{
    let width = before.len();
    let mut drifts = tile_space();
    let mut phases = tile_space();
    plan_in(
        settings,
        part,
        before,
        &mut drifts[..width],
        &mut phases[..width],
        &mut links[..3 * width + 2],
        times,
        letters,
    )
}

// With room for the drifts, the phases and the link values.
fn plan_in(
    settings: Settings,
    part: &[u8],
    before: &[u64],
    drifts: &mut [u32],
    phases: &mut [u32],
    links: &mut [u64],
    times: &mut [u64],
    letters: &mut [u8],
) -> Result<(), Refusal>
    requires plannable { Plannable settings part.now (length before.now) (length times.old) (length letters.old) }
    requires drifts_len { (length drifts.old ≡ settings.width) × (length phases.old ≡ settings.width) × (length links.old ≡ 3 * settings.width + 2) }
    ensures { WorkedOut settings part.now before.now (pulses times.old letters.old) result (pulses times.new letters.new) }
{
    let width = before.len();
    let marks = (width + 7) / 8;
    let size = 30 * width + 16;
    let rest = &part[3 + marks..];
    fields::check(4, size, rest)?;
    contents::tiles(width, fields::body(size, rest), drifts, phases, links);
    row::plan(
        settings,
        before,
        fields::body(marks, part),
        drifts,
        phases,
        links,
        times,
        letters,
    )?;
    Ok(())
}

// Room for the drifts of any row, or for its phases.
fn tile_space() -> [u32; 256]
    ensures { 256 ≡ length result }
{
    [0; 256]
}

// Room for the link values of any row.
pub fn link_space() -> [u64; 770]
    ensures { 770 ≡ length result }
{
    [0; 770]
}

// The bytes of a row's two fields.
pub fn size(width: usize) -> usize
    requires { width ≤ 256 }
    ensures { result ≡ row_size width }
{
    3 + (width + 7) / 8 + (3 + (30 * width + 16))
}
