// What the fields hold.
#![tactic(auto)]

ghost use Rattle.std.specs.Prelude.{◌≡◌, true, ◌+◌, ◌*◌, ◌≤◌, ◌<◌, length};
ghost use Rattle.settings.specs.Refusal.{any_below};
ghost use Rattle.settings.specs.Settings.{checked};
ghost use Rattle.columns.specs.Columns.{links_before};
ghost use Rattle.columns.specs.Window.{four_senders};
ghost use Rattle.columns.specs.Wrote.{Wrote};
ghost use Rattle.contents.specs.Contents.{settings_in, times_in, late_start, drifts_in, phases_in, links_in, tile_links, tile_place};

use columns::four_senders;
use fields::bytes::{eight, four, two};
use settings::Settings;
use settings::refusal::Refusal;

// The latest row 0 time.
pub const LATEST_START: u64 = 549_755_813_887;

// The settings of a body of 24 bytes, or why they are turned away.
pub fn settings(body: &[u8]) -> Result<Settings, Refusal>
    requires { length body.now ≡ 24 }
    ensures { result ≡ checked (settings_in body.now) }
{
    Settings::new(
        two(body, 0),
        two(body, 2),
        four(body, 4),
        four(body, 8),
        four(body, 12),
        four(body, 16),
        four(body, 20),
    )
}

// Whether a row 0 time is over the latest.
pub fn late_start(width: usize, body: &[u8]) -> bool
    requires { (width ≤ 256) × (length body.now ≡ 8 * width) }
    ensures { result ≡ any_below width (late_start (times_in width body.now)) }
{
    (0..width).any(|c| LATEST_START < eight(body, 8 * c))
}

// Writes the row 0 times.
pub fn times(body: &[u8], times: &mut [u64])
    requires { (length times.old ≤ 256) × (length body.now ≡ 8 * length times.old) }
    ensures { times.new ≡ times_in (length times.old) body.now }
{
    for (c, time) in times.iter_mut().enumerate() {
        *time = eight(body, 8 * c);
    }
}

// Writes the drifts, the phases and the link values of a row.
pub fn tiles(width: usize, body: &[u8], drifts: &mut [u32], phases: &mut [u32], links: &mut [u64])
    requires le_width { (6 ≤ width) × (width ≤ 256) × (length body.now ≡ 30 * width + 16) }
    requires drifts_len { (length drifts.old ≡ width) × (length phases.old ≡ width) × (length links.old ≡ 3 * width + 2) }
    ensures drifts { drifts.new ≡ drifts_in width body.now }
    ensures phases { phases.new ≡ phases_in width body.now }
    ensures links { links.new ≡ links_in width body.now }
{
    let mut n = 0;
    for c in 0..width {
        let at = 6 * c + 8 * n;
        drifts[c] = two(body, at) as u32;
        phases[c] = four(body, at + 2) as u32;
        n = tile(width, c, body, at + 6, links, n);
    }
}

// Writes the link values of one tile from place n on, and answers where they end.
fn tile(width: usize, c: usize, body: &[u8], at: usize, links: &mut [u64], n: usize) -> usize
    requires le_width { (6 ≤ width) × (width ≤ 256) × (c < width) × (n ≡ links_before width c) × (at ≡ tile_place width c + 6) }
    requires n_in_bounds { (n + 3 ≤ length links.old) × (length links.old ≤ 770) × (at + 24 ≤ length body.now) × (length body.now ≤ 7696) }
    requires n_in_bounds_2 { four_senders width c ≡ true → (n + 4 ≤ length links.old) × (at + 32 ≤ length body.now) }
    ensures { Wrote links.old n (tile_links width body.now c) links.new result }
{
    links[n] = eight(body, at);
    links[n + 1] = eight(body, at + 8);
    links[n + 2] = eight(body, at + 16);
    if four_senders(width, c) {
        links[n + 3] = eight(body, at + 24);
        return n + 4;
    }
    n + 3
}
