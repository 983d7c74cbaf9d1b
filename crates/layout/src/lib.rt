// The structs of the C header as words, in the order of its fields.
#![tactic(auto)]

ghost use Rattle.std.specs.Prelude.{◌≡◌, ◌+◌, ◌≤◌, length};
ghost use Rattle.layout.specs.Words.{settings_from, stamp_in, stamps_in, side_word, place_in, staged, wall_in, place_words, wall_words, refused_words, refused_number, takes};

use seam::Side;
use settings::Settings;
use stages::{Place, Wall};
use tile::Stamps;

// The number of what does not fit and has no number of its own.
pub const UNFIT: u32 = 4_294_967_295;

pub fn settings_in(words: &[u64; 7]) -> Settings
    ensures { result ≡ settings_from 0 words.now }
{
    settings_from(words, 0)
}

// The settings among words, from a place on.
pub fn settings_from(words: &[u64], at: usize) -> Settings
    requires { at + 7 ≤ length words.now }
    ensures { result ≡ settings_from at words.now }
{
    Settings {
        width: words[at],
        rows: words[at + 1],
        delay: words[at + 2],
        uncertainty: words[at + 3],
        hold: words[at + 4],
        drift: words[at + 5],
        unit: words[at + 6],
    }
}

// A stamp of a silent sender.
const SILENT: u64 = u64::MAX;

// The first reading that is too late for a stamp.
const FIRST_LATE: u64 = 2_199_023_255_552;

// Own's stamp, the neighbours', and their count.
pub fn stamps_in(words: &[u64; 5]) -> Stamps
    ensures { result ≡ stamps_in words.now }
{
    Stamps {
        at: [
            stamp_in(words[0]),
            stamp_in(words[1]),
            stamp_in(words[2]),
            stamp_in(words[3]),
        ],
        silent: [
            words[0] == SILENT,
            words[1] == SILENT,
            words[2] == SILENT,
            words[3] == SILENT,
        ],
        count: words[4].min(4) as u32,
    }
}

// The stamp as it is, up to the first that is too late.
fn stamp_in(word: u64) -> i64
    ensures { result ≡ stamp_in word }
{
    word.min(FIRST_LATE) as i64
}

pub fn side(side: Side) -> u32
    ensures { result ≡ side_word side }
{
    match side {
        Side::Left => 1,
        Side::Right => 2,
        Side::Both => 3,
    }
}

pub fn wall_in(words: &[u64; 10]) -> Wall
    ensures { result ≡ wall_in words.now }
{
    staged(words[0], place_in(words))
}

pub fn place_in(words: &[u64; 10]) -> Place
    ensures { result ≡ place_in words.now }
{
    Place {
        settings: settings_from(words, 1),
        row: words[8],
        offset: words[9],
    }
}

fn staged(stage: u64, place: Place) -> Wall
    ensures { result ≡ staged stage place }
{
    match stage {
        0 => Wall::New,
        1 => Wall::Start(place),
        2 => Wall::Row(place),
        3 => Wall::End(place),
        _ => Wall::Over,
    }
}

// Whether a step can be taken: the words are a wall's, and the part is no longer than what is due.
pub fn takes(words: &[u64; 10], part: usize) -> bool
    ensures { result ≡ takes words.now part }
{
    if 4 < words[0] {
        return false;
    }
    let wall = wall_in(words);
    part <= wall.due()
}

// The number of a file that is turned away; 0 where the words are not such a file's.
pub fn refused_number(words: &[u64; 10]) -> u32
    ensures { result ≡ refused_number words.now }
{
    if words[0] != 5 {
        return 0;
    }
    if u64::from(UNFIT) <= words[8] {
        return 0;
    }
    words[8] as u32
}

// The place is that of a wall that has none.
pub fn wall_words(wall: Wall, place: Place) -> [u64; 10]
    ensures { result ≡ wall_words wall place }
{
    match wall {
        Wall::New => place_words(0, place),
        Wall::Start(next) => place_words(1, next),
        Wall::Row(next) => place_words(2, next),
        Wall::End(next) => place_words(3, next),
        Wall::Over => place_words(4, place),
    }
}

// A file that is turned away; the place is the last that it had.
pub fn refused_words(number: u32, offset: u64, place: Place) -> [u64; 10]
    ensures { result ≡ refused_words number offset place }
{
    let settings = place.settings;
    place_words(
        5,
        Place {
            settings,
            row: u64::from(number),
            offset,
        },
    )
}

fn place_words(stage: u64, place: Place) -> [u64; 10]
    ensures { result ≡ place_words stage place }
{
    [
        stage,
        place.settings.width,
        place.settings.rows,
        place.settings.delay,
        place.settings.uncertainty,
        place.settings.hold,
        place.settings.drift,
        place.settings.unit,
        place.row,
        place.offset,
    ]
}
