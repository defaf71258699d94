// One customer's book, and what a message to it answers.
use credit::types::Account;
use records::types::Record;
use refusals::Answer;

#[derive(Clone, Copy, PartialEq, Eq, Debug)]
pub struct Book {
    // First, since the paths of proofs follow a field's position.
    pub records: [Record; 256],
    pub account: Account,
}

impl Book {
    pub const PLACES: usize = 256;
}

// The next book, and the answer.
#[derive(Clone, Copy)]
pub struct Outcome {
    pub book: Book,
    pub answer: Answer,
}
