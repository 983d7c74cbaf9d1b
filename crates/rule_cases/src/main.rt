// Runs the cases of tiles, clocks and settings (§14.1 to §14.3), tiles at each tie between two letters
// (§E3.1), clocks with a phase (§E4.1), and a tile or settings for each number, through the operations, as
// the file `stdin` lists them. Each line says what is asked for and whether the operation answered that.
#![tactic(auto)]

ghost use Rattle.std.specs.Prelude.{◌<◌, ◌^◌, ◌↔◌, IsTrue, IfSome};
ghost use Rattle.rule.specs.Clock.{Admitted};

use cases::Case;
use rule::clock::Clock;
use settings::Settings;
use settings::refusal::Refusal;
use std::io;
use tile::{Forwarded, Stamps};

fn main(rt: HostRuntime) -> io::Result<()> {
    cases::run(&rt, |out, case| case.report(out, right(case)))
}

// Whether the operation answers what a case says.
fn right(case: &Case<'_>) -> bool {
    match (case.kind, case.numbers) {
        (b's', [w, rows, d, u, a, r, h, number]) => {
            number_of(Settings::new(*w, *rows, *d, *u, *a, *r, *h)) == *number
        }
        (b'k', [drift, phase, tick, reading]) => match clock(*drift, *phase) {
            Some(clock) => in_range(*tick) && clock.reading(*tick) == *reading,
            None => false,
        },
        (b't', [drift, phase, reading, tick]) => match clock(*drift, *phase) {
            Some(clock) => {
                0 < *reading && in_range(*reading) && clock.first_tick(*reading) == *tick
            }
            None => false,
        },
        (b'c' | b'u' | b'r', numbers) => tile_right(case.kind, numbers),
        _ => false,
    }
}

// 0 where settings are handed out.
fn number_of(checked: Result<Settings, Refusal>) -> u64 {
    match checked {
        Ok(_) => 0,
        Err(refusal) => u64::from(refusal.number()),
    }
}

// A clock within its limits.
fn clock(drift: u64, phase: u64) -> Option<Clock>
    ensures { IfSome result Admitted }
{
    if 10_000 < drift || Clock::PHASE_MOST < phase {
        return None;
    }
    Some(Clock { drift, phase })
}

// Whether a clock is asked of a tick or a reading.
fn in_range(value: u64) -> bool
    ensures { IsTrue result ↔ (value < 2 ^ 43) }
{
    value < 8_796_093_022_208
}

fn tile_right(kind: u8, numbers: &[u64]) -> bool {
    let Some((settings, rest)) = numbers.split_first_chunk::<7>() else {
        return false;
    };
    let [w, rows, d, u, a, r, h] = *settings;
    let settings = Settings {
        width: w,
        rows,
        delay: d,
        uncertainty: u,
        hold: a,
        drift: r,
        unit: h,
    };
    let [
        count,
        own,
        x,
        y,
        z,
        own_silent,
        x_silent,
        y_silent,
        z_silent,
        first,
        second,
        letter,
    ] = rest
    else {
        return false;
    };
    let Ok(count) = u32::try_from(*count) else {
        return false;
    };
    let stamps = Stamps {
        at: [
            own.cast_signed(),
            x.cast_signed(),
            y.cast_signed(),
            z.cast_signed(),
        ],
        silent: [
            *own_silent != 0,
            *x_silent != 0,
            *y_silent != 0,
            *z_silent != 0,
        ],
        count,
    };
    let given = tile::forward(settings, stamps);
    same(
        kind,
        first.cast_signed(),
        second.cast_signed(),
        *letter,
        given,
    )
}

// Whether a tile forwards what a case gives: c, P, the correction and the letter; u, P, 0 and the letter; r, the number, 0 and 0.
fn same(kind: u8, first: i64, second: i64, letter: u64, given: Result<Forwarded, Refusal>) -> bool {
    match given {
        Ok(told) => {
            let right = match told.correction {
                Some(correction) => kind == b'c' && correction == second,
                None => kind == b'u' && second == 0,
            };
            right && told.p == first && u64::from(told.letter.byte()) == letter
        }
        Err(refusal) => {
            kind == b'r' && i64::from(refusal.number()) == first && second == 0 && letter == 0
        }
    }
}
