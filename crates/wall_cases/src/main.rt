// Runs the wall files that its arguments name, and writes each name and what the file gives. The files, the
// names and what must come out are made by the reference program (reference/README.md).
#![tactic(auto)]

use arguments::WORD_MOST;
use asked::Asked;
use source::Failure;
use std::env::Env;
use std::io::Print;

fn main(rt: HostRuntime) {
    for i in 1..arguments::word_count(&rt) {
        case(&rt, i);
    }
}

fn case(rt: &HostRuntime, i: usize) {
    let mut buffer = [0u8; WORD_MOST];
    let n = rt.arg(i, &mut buffer).unwrap_or(0);
    let name = &buffer[..n];
    let _ = Print::write_all(rt, name);
    let _ = Print::write_all(rt, b"\n");
    let file = match source::open_read(rt, name) {
        Ok(file) => file,
        Err(e) => return source::say_failed(rt, name, e),
    };
    let mut tables = tables::space();
    tables::fill(&mut tables);
    match source::write_asked(rt, file, Asked::Lines, &tables) {
        Ok(()) => {}
        Err(Failure::Reading(why) | Failure::Writing(why)) => source::say_failed(rt, name, why),
    }
}
