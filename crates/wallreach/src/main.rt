// Reads a wall file and writes its search range to standard output, with the reach in the later rows that are asked for.
#![tactic(auto)]

use arguments::Limits;
use asked::Asked;
use source::Program;

const WALLREACH: Program<'static> = Program {
    name: "wallreach",
    needed: "",
    usage: "usage: wallreach [ROW]... [FILE], with at most 16 rows from 1 to 1024\n",
    about: "Reads a wall file without faults, or standard input, and writes how far one\nbroken tile can reach to standard output. The manual is docs/man/wallreach.1.\n",
};

fn main(rt: HostRuntime) {
    let mut rows = [0u64; 16];
    let call = arguments::read(
        &rt,
        0,
        Limits {
            least: 1,
            largest: 1024,
        },
        &mut rows,
    );
    if let Some(from) = WALLREACH.source(&rt, call) {
        WALLREACH.run(&rt, from, Asked::Range, &rows);
    }
}
