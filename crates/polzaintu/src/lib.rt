// The operations for C and for Rust, as bindings/c/polzaintu.h declares them. A struct of the header is an
// array of words here. The answer is the refusal's number, or 0; what is lent to be written then holds what
// it held.
#![tactic(auto)]

ghost use Rattle.std.specs.Prelude.{◌≡◌, length, replicate, get_or};
ghost use Rattle.settings.specs.Refusal.{number_in};
ghost use Rattle.settings.specs.Settings.{settings_refusal};
ghost use Rattle.tile.specs.Tile.{forwarded};
ghost use Rattle.admission.specs.Call.{call};
ghost use Rattle.row.specs.Row.{pulses, planned, written, lettered};
ghost use Rattle.seam.specs.Seam.{seam_of};
ghost use Rattle.reach.specs.Search.{gap_of, reach_of, reach_in_row};
ghost use Rattle.reach.specs.Survey.{surveyed_of};
ghost use Rattle.stages.specs.Fit.{due_of, width_of};
ghost use Rattle.places.specs.Seams.{columns_of, seam_at};
ghost use Rattle.places.specs.Marks.{mark_of};
ghost use Rattle.places.specs.Links.{link_of};
ghost use Rattle.wide.specs.Wide.{first_wide};
ghost use Rattle.layout.specs.Words.{settings_from, stamps_in, wall_in};
ghost use Rattle.calls.specs.Answers.{forwarded_left, ends_left, side_left, halves_left, gap_left, reach_number, reach_left, survey_number, survey_left, columns_number, columns_left, row_seam_number, row_seam_columns, row_seam_side, row_seam_halves, mark_number, mark_left, link_number, link_left, wide_found, wide_left};
ghost use Rattle.wall_calls.specs.Answers.{step_answer, next_left, step_number, wall_left, offset_left};
ghost use Rattle.waves.specs.Wave.{wave};
ghost use Rattle.wave_calls.specs.Answers.{start_number, start_left, wave_number, wave_left, wave_side, wave_halves, ask_number, half_ticks_left, ticks_left};
ghost use Rattle.board_calls.specs.Answers.{start_number as Board·start-number, start_left as Board·start-left, pulse_number, pulse_left, close_number, close_left, close_answer, many_left, many_answer};

use layout::{settings_in, stamps_in, wall_in};

#[unsafe(no_mangle)]
pub extern "C" fn polzaintu_settings_refusal(settings: &[u64; 7]) -> u32
    ensures { result ≡ settings_refusal (settings_from 0 settings.now) }
{
    match settings_in(settings).check() {
        Ok(()) => 0,
        Err(refusal) => refusal.number(),
    }
}

#[unsafe(no_mangle)]
pub extern "C" fn polzaintu_tile(
    settings: &[u64; 7],
    stamps: &[u64; 5],
    answer: &mut [i64; 4],
) -> u32
    ensures number { result ≡ number_in (forwarded (settings_from 0 settings.now) (stamps_in stamps.now)) }
    ensures answer { answer.new ≡ forwarded_left (forwarded (settings_from 0 settings.now) (stamps_in stamps.now)) answer.old }
{
    calls::left(
        tile::forward(settings_in(settings), stamps_in(stamps)),
        answer,
    )
}

#[unsafe(no_mangle)]
pub extern "C" fn polzaintu_row(
    settings: &[u64; 7],
    before: &[u64],
    marks: &[u8],
    drifts: &[u32],
    phases: &[u32],
    links: &[u64],
    times: &mut [u64],
    letters: &mut [u8],
    ends: &mut [u64; 2],
) -> u32
    ensures number { result ≡ number_in (planned (settings_from 0 settings.now) before.now (call marks.now drifts.now phases.now links.now (length times.old) (length letters.old))) }
    ensures times { times.new ≡ written (settings_from 0 settings.now) before.now (call marks.now drifts.now phases.now links.now (length times.old) (length letters.old)) times.old }
    ensures letters { letters.new ≡ lettered (settings_from 0 settings.now) before.now (call marks.now drifts.now phases.now links.now (length times.old) (length letters.old)) letters.old }
    ensures ends { ends.new ≡ ends_left (planned (settings_from 0 settings.now) before.now (call marks.now drifts.now phases.now links.now (length times.old) (length letters.old))) ends.old }
{
    calls::left(
        row::plan(
            settings_in(settings),
            before,
            marks,
            drifts,
            phases,
            links,
            times,
            letters,
        ),
        ends,
    )
}

#[unsafe(no_mangle)]
pub extern "C" fn polzaintu_seam(
    left: u64,
    left_faulty: bool,
    right: u64,
    right_faulty: bool,
    side: &mut u32,
    halves: &mut [f64; 2],
) -> u32
    ensures number { result ≡ number_in (seam_of left left_faulty right right_faulty) }
    ensures side { side.new ≡ side_left (seam_of left left_faulty right right_faulty) side.old }
    ensures halves { halves.new ≡ halves_left (seam_of left left_faulty right right_faulty) halves.old }
{
    calls::seam_left(
        seam::join(left, left_faulty, right, right_faulty),
        side,
        halves,
    )
}

#[unsafe(no_mangle)]
pub extern "C" fn polzaintu_widest_gap(settings: &[u64; 7], row: &[u64], gap: &mut u64) -> u32
    ensures number { result ≡ number_in (gap_of (settings_from 0 settings.now) row.now) }
    ensures gap { gap.new ≡ gap_left (gap_of (settings_from 0 settings.now) row.now) gap.old }
{
    calls::left(reach::widest_gap(settings_in(settings), row), gap)
}

// `broken` is the gap, the rows and the column.
#[unsafe(no_mangle)]
pub extern "C" fn polzaintu_reach(
    settings: &[u64; 7],
    broken: &[u64; 3],
    range: &mut [u64; 3],
) -> u32
    ensures number { result ≡ reach_number (reach_of (settings_from 0 settings.now) (get_or broken.now 0 0) (get_or broken.now 1 0) (get_or broken.now 2 0)) }
    ensures range { range.new ≡ reach_left (reach_of (settings_from 0 settings.now) (get_or broken.now 0 0) (get_or broken.now 1 0) (get_or broken.now 2 0)) range.old }
{
    let reached = reach::reach(settings_in(settings), broken[0], broken[1], broken[2]);
    calls::left_within(reached, range)
}

// `broken` is the gap, the row, the later row and the column.
#[unsafe(no_mangle)]
pub extern "C" fn polzaintu_reach_in_row(
    settings: &[u64; 7],
    broken: &[u64; 4],
    range: &mut [u64; 3],
) -> u32
    ensures number { result ≡ reach_number (reach_in_row (settings_from 0 settings.now) (get_or broken.now 0 0) (get_or broken.now 1 0) (get_or broken.now 2 0) (get_or broken.now 3 0)) }
    ensures range { range.new ≡ reach_left (reach_in_row (settings_from 0 settings.now) (get_or broken.now 0 0) (get_or broken.now 1 0) (get_or broken.now 2 0) (get_or broken.now 3 0)) range.old }
{
    let reached = reach::reach_in_row(
        settings_in(settings),
        broken[0],
        broken[1],
        broken[2],
        broken[3],
    );
    calls::left_within(reached, range)
}

// `survey` is the row that is due, B of the last one surveyed and the largest reach.
#[unsafe(no_mangle)]
pub extern "C" fn polzaintu_survey_row(
    settings: &[u64; 7],
    row: &[u64],
    survey: &mut [u64; 3],
) -> u32
    ensures number { result ≡ survey_number (surveyed_of (settings_from 0 settings.now) (get_or survey.old 0 0) (get_or survey.old 2 0) row.now) }
    ensures survey { survey.new ≡ survey_left (surveyed_of (settings_from 0 settings.now) (get_or survey.old 0 0) (get_or survey.old 2 0) row.now) survey.old }
{
    calls::survey_row(settings_in(settings), row, survey)
}

#[unsafe(no_mangle)]
pub extern "C" fn polzaintu_seam_columns(
    settings: &[u64; 7],
    seam: u64,
    columns: &mut [u64; 2],
) -> u32
    ensures number { result ≡ columns_number (columns_of (settings_from 0 settings.now) seam) }
    ensures columns { columns.new ≡ columns_left (columns_of (settings_from 0 settings.now) seam) columns.old }
{
    calls::left_within(
        places::seams::columns_of(settings_in(settings), seam),
        columns,
    )
}

#[unsafe(no_mangle)]
pub extern "C" fn polzaintu_row_seam(
    settings: &[u64; 7],
    times: &[u64],
    marks: &[u8],
    seam: u64,
    columns: &mut [u64; 2],
    side: &mut u32,
    halves: &mut [f64; 2],
) -> u32
    ensures number { result ≡ row_seam_number (seam_at (settings_from 0 settings.now) times.now marks.now seam) }
    ensures columns { columns.new ≡ row_seam_columns (seam_at (settings_from 0 settings.now) times.now marks.now seam) columns.old }
    ensures side { side.new ≡ row_seam_side (seam_at (settings_from 0 settings.now) times.now marks.now seam) side.old }
    ensures halves { halves.new ≡ row_seam_halves (seam_at (settings_from 0 settings.now) times.now marks.now seam) halves.old }
{
    calls::row_seam_left(
        places::seams::row_seam(settings_in(settings), times, marks, seam),
        columns,
        side,
        halves,
    )
}

#[unsafe(no_mangle)]
pub extern "C" fn polzaintu_first_wide(
    settings: &[u64; 7],
    times: &[u64],
    marks: &[u8],
    limit: u64,
    found: &mut bool,
    wide: &mut [u64; 3],
) -> u32
    ensures number { result ≡ number_in (first_wide (settings_from 0 settings.now) times.now marks.now limit) }
    ensures found { found.new ≡ wide_found (first_wide (settings_from 0 settings.now) times.now marks.now limit) found.old }
    ensures wide { wide.new ≡ wide_left (first_wide (settings_from 0 settings.now) times.now marks.now limit) wide.old }
{
    calls::first_wide_left(
        wide_rows::first_wide(settings_in(settings), times, marks, limit),
        found,
        wide,
    )
}

#[unsafe(no_mangle)]
pub extern "C" fn polzaintu_mark(
    settings: &[u64; 7],
    marks: &[u8],
    column: u64,
    faulty: &mut bool,
) -> u32
    ensures number { result ≡ mark_number (mark_of (settings_from 0 settings.now) marks.now column) }
    ensures faulty { faulty.new ≡ mark_left (mark_of (settings_from 0 settings.now) marks.now column) faulty.old }
{
    calls::left_within(
        places::marks::mark_of(settings_in(settings), marks, column),
        faulty,
    )
}

#[unsafe(no_mangle)]
pub extern "C" fn polzaintu_link_place(
    settings: &[u64; 7],
    tile: u64,
    sender: u64,
    place: &mut u64,
) -> u32
    ensures number { result ≡ link_number (link_of (settings_from 0 settings.now) tile sender) }
    ensures place { place.new ≡ link_left (link_of (settings_from 0 settings.now) tile sender) place.old }
{
    calls::left_within(
        places::links::place_of(settings_in(settings), tile, sender),
        place,
    )
}

#[unsafe(no_mangle)]
pub extern "C" fn polzaintu_wall_new(wall: &mut [u64; 10])
    ensures { wall.new ≡ replicate 10 0 }
{
    *wall = [0; 10];
}

#[unsafe(no_mangle)]
pub extern "C" fn polzaintu_wall_due(wall: &[u64; 10]) -> usize
    ensures { result ≡ due_of (wall_in wall.now) }
{
    let wall = wall_in(wall);
    wall.due()
}

#[unsafe(no_mangle)]
pub extern "C" fn polzaintu_wall_width(wall: &[u64; 10]) -> usize
    ensures { result ≡ width_of (wall_in wall.now) }
{
    let wall = wall_in(wall);
    wall.width()
}

#[unsafe(no_mangle)]
pub extern "C" fn polzaintu_wall_step(
    wall: &mut [u64; 10],
    part: &[u8],
    row: &[u64],
    next: &mut [u64],
    letters: &mut [u8],
    offset: &mut u64,
) -> u32
    ensures number { result ≡ step_number (step_answer wall.old part.now row.now (pulses next.old letters.old)) }
    ensures wall { wall.new ≡ wall_left (step_answer wall.old part.now row.now (pulses next.old letters.old)) wall.old }
    ensures next { pulses next.new letters.new ≡ next_left wall.old part.now row.now (pulses next.old letters.old) }
    ensures offset { offset.new ≡ offset_left (step_answer wall.old part.now row.now (pulses next.old letters.old)) offset.old }
{
    wall_calls::step(wall, part, row, next, letters, offset)
}

// Begins the last n waves of a seam.
#[unsafe(no_mangle)]
pub extern "C" fn polzaintu_waves_start(n: u64, waves: &mut [u64; 66]) -> u32
    ensures number { result ≡ start_number n }
    ensures waves { waves.new ≡ start_left n waves.old }
{
    wave_calls::start(n, waves)
}

#[unsafe(no_mangle)]
pub extern "C" fn polzaintu_waves_hand_in(
    waves: &mut [u64; 66],
    left: u64,
    left_faulty: bool,
    right: u64,
    right_faulty: bool,
    side: &mut u32,
    halves: &mut [f64; 2],
) -> u32
    ensures number { result ≡ wave_number waves.old (wave left left_faulty right right_faulty) }
    ensures waves { waves.new ≡ wave_left waves.old (wave left left_faulty right right_faulty) }
    ensures side { side.new ≡ wave_side waves.old (wave left left_faulty right right_faulty) side.old }
    ensures halves { halves.new ≡ wave_halves waves.old (wave left left_faulty right right_faulty) halves.old }
{
    wave_calls::hand_in(waves, left, left_faulty, right, right_faulty, side, halves)
}

// The largest and the smallest half gap, in half ticks and in ticks.
#[unsafe(no_mangle)]
pub extern "C" fn polzaintu_waves_ask(
    waves: &[u64; 66],
    half_ticks: &mut [i64; 2],
    ticks: &mut [f64; 2],
) -> u32
    ensures number { result ≡ ask_number waves.now }
    ensures half_ticks { half_ticks.new ≡ half_ticks_left waves.now half_ticks.old }
    ensures ticks { ticks.new ≡ ticks_left waves.now ticks.old }
{
    wave_calls::ask(waves, half_ticks, ticks)
}

// Begins a tile as it runs.
#[unsafe(no_mangle)]
pub extern "C" fn polzaintu_board_start(
    settings: &[u64; 7],
    count: u64,
    reading: u64,
    board: &mut [u64; 18],
) -> u32
    ensures number { result ≡ Board·start-number (settings_from 0 settings.now) count reading }
    ensures board { board.new ≡ Board·start-left (settings_from 0 settings.now) count reading board.old }
{
    board_calls::start(settings_in(settings), count, reading, board)
}

#[unsafe(no_mangle)]
pub extern "C" fn polzaintu_board_pulse(board: &mut [u64; 18], sender: u64) -> u32
    ensures number { result ≡ pulse_number board.old sender }
    ensures board { board.new ≡ pulse_left board.old sender }
{
    board_calls::pulse(board, sender)
}

#[unsafe(no_mangle)]
pub extern "C" fn polzaintu_board_close(board: &mut [u64; 18], answer: &mut u32) -> u32
    ensures number { result ≡ close_number board.old }
    ensures board { board.new ≡ close_left board.old }
    ensures answer { answer.new ≡ close_answer board.old answer.old }
{
    board_calls::close(board, answer)
}

#[unsafe(no_mangle)]
pub extern "C" fn polzaintu_board_close_many(board: &mut [u64; 18], n: u64, answer: &mut u32) -> u32
    ensures number { result ≡ close_number board.old }
    ensures board { board.new ≡ many_left board.old n }
    ensures answer { answer.new ≡ many_answer board.old n answer.old }
{
    board_calls::close_many(board, n, answer)
}

// The version as one number.
#[unsafe(no_mangle)]
pub extern "C" fn polzaintu_version() -> u32
    ensures { result ≡ 8000 }
{
    version::NUMBER
}
