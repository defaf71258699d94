// Long deterministic runs of messages through the book's one entry, as docs/DRILL.md writes them down.
//
// Standard input has four numbers: how many turns to run, the first turn that has a line, the turn at which such lines end, and the
// seed of the first turn.
#![tactic(auto)]

mod asides;
mod ask;
mod changes;
mod closes;
mod digest;
mod generator;
mod points;
mod quarters;
mod questions;
mod report;
mod rows;
mod run;
mod tally;
mod trials;
mod values;

use lines::numbers::whole;
use run::Plan;
use std::io::Read;

// What is read is at most so long.
const LONGEST: u64 = 128;

// A read that fails is the end of what is read, and a line that cannot be written is passed over.
fn main(rt: HostRuntime) {
    let mut text = Vec::new(rt.alloc());
    let _ = rt.reader().take(LONGEST).read_to_end(&mut text);
    let plan = Plan {
        turns: whole(&text, 0),
        shown: whole(&text, 1)..whole(&text, 2),
        seed: generator::seed_of(whole(&text, 3)),
    };
    run::run(&rt, &plan);
}
