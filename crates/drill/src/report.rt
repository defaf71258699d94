// What the drill prints: a line for a turn, a line for a checkpoint, and the table.
use crate::ask::Ask;
use crate::tally::Tally;
use book::Answer;

pub(crate) fn turn(rt: &impl Print, tally: &Tally, ask: &Ask, answer: Answer) {
    let _ = println!(rt;
        "turn {} {} : {} {} {} {} {} {}",
        tally.turn,
        ask,
        answer.number(),
        answer.requirement(),
        answer.held(),
        answer.net_owed(),
        u64::from(answer.removed()),
        tally.digest
    );
}

// The rows that were met, each with how often; then how many messages there were, and the digest.
pub(crate) fn table(rt: &impl Print, tally: &Tally) {
    for (row, met) in tally.counts.table().iter().enumerate() {
        if 0 < *met {
            let _ = println!(rt; "row {row} {met}");
        }
    }
    let _ = println!(rt; "messages {} {}", tally.messages, tally.digest);
}
