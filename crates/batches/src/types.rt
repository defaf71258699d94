// What the pending bids of an hour bring, and how a close ends.
use credit::types::Account;
use records::types::Record;
use refusals::Answer;

// What the places passed so far bring to a batch.
#[derive(Clone, Copy)]
pub struct Batch {
    // How many bids are pending at the hour.
    pub count: u64,
    // Each of them is listed.
    pub listed: bool,
    // What they require together.
    pub cents: i64,
}

// The places after a close, what is kept beside them, and the answer.
// In its parts, and no `book::Outcome`: this crate stands below `book`.
#[derive(Clone, Copy)]
pub struct Closed {
    pub records: [Record; 256],
    pub account: Account,
    pub answer: Answer,
}
