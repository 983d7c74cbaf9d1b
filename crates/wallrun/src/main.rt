// Reads a wall file and writes its rows, or its refusal, to standard output.
#![tactic(auto)]

use arguments::Limits;
use asked::Asked;
use source::Program;

const WALLRUN: Program<'static> = Program {
    name: "wallrun",
    needed: "",
    usage: "usage: wallrun [FILE]\n",
    about: "Reads a wall file, or standard input, and writes the pulse times and the seams\nof its rows to standard output. The manual is docs/man/wallrun.1.\n",
};

fn main(rt: HostRuntime) {
    let call = arguments::read(
        &rt,
        0,
        Limits {
            least: 0,
            largest: 0,
        },
        &mut [],
    );
    if let Some(from) = WALLRUN.source(&rt, call) {
        let mut tables = tables::space();
        tables::fill(&mut tables);
        WALLRUN.run(&rt, from, Asked::Lines, &tables);
    }
}
