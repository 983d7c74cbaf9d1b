// The place of a link among a row's 3W + 2 link values.
ghost use Rattle.std.specs.Prelude.{◌≡◌, ◌≤◌, ◌<◌};
ghost use Rattle.places.specs.Links.{heard_at, link_of};

use columns::{first_link, first_sender, four_senders};
use settings::Settings;
use settings::refusal::Refusal;

// Of the link from the sender's column to the tile's: none where that is no tile of the row, or does not hear the sender.
pub fn place_of(settings: Settings, tile: u64, sender: u64) -> Result<Option<u64>, Refusal>
    ensures { result ≡ link_of settings tile sender }
{
    settings.check()?;
    let width = settings.width;
    if width <= tile {
        return Ok(None);
    }
    Ok(heard(width as usize, tile as usize, sender))
}

fn heard(width: usize, c: usize, sender: u64) -> Option<u64>
    requires { (6 ≤ width) × (c < width) × (width ≤ 256) }
    ensures { result ≡ heard_at width c sender }
{
    let first = first_sender(width, c) as u64;
    let place = first_link(width, c) as u64;
    if sender == first {
        return Some(place);
    }
    if sender == first + 1 {
        return Some(place + 1);
    }
    if sender == first + 2 {
        return Some(place + 2);
    }
    if four_senders(width, c) {
        if sender == first + 3 {
            return Some(place + 3);
        }
        return None;
    }
    None
}
