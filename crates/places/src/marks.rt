// The mark of a column.
ghost use Rattle.std.specs.Prelude.{◌≡◌};
ghost use Rattle.places.specs.Marks.{mark_of};

use columns::marked;
use settings::Settings;
use settings::refusal::Refusal;

// Whether the tile is faulty; none where that is no column of the row.
pub fn mark_of(settings: Settings, marks: &[u8], column: u64) -> Result<Option<bool>, Refusal>
    ensures { result ≡ mark_of settings marks.now column }
{
    settings.check()?;
    let width = settings.width;
    if marks.len() as u64 != (width + 7) / 8 {
        return Err(Refusal::Lengths);
    }
    if width <= column {
        return Ok(None);
    }
    Ok(Some(marked(marks, column as usize)))
}
