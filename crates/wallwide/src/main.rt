// Reads a wall file and writes its first seam whose half gap is over a limit in half ticks, its refusal, or that there is none.
#![tactic(auto)]

use arguments::Limits;
use asked::Asked;
use source::Program;

const WALLWIDE: Program<'static> = Program {
    name: "wallwide",
    needed: "a limit",
    usage: "usage: wallwide LIMIT [FILE], with a limit from 0 to 4398046511104 half ticks\n",
    about: "Reads a wall file, or standard input, and writes the first seam whose half gap\nis over the limit to standard output, or that there is none. The manual is\ndocs/man/wallwide.1.\n",
};

fn main(rt: HostRuntime) {
    let mut limit = [0u64; 1];
    let call = arguments::read(
        &rt,
        1,
        Limits {
            least: 0,
            largest: 4_398_046_511_104,
        },
        &mut limit,
    );
    if let Some(from) = WALLWIDE.source(&rt, call) {
        WALLWIDE.run(&rt, from, Asked::Wide(limit[0]), &[]);
    }
}
