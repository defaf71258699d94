// What a message sees of a book, and how it ends.
use credit::types::{Account, Sums};
use records::types::Record;
use refusals::Answer;

// All that a message sees of a book.
#[derive(Clone, Copy)]
pub struct View {
    pub sound: bool,
    pub account: Account,
    pub sums: Sums,
    // The lowest free place.
    pub free: Option<usize>,
    // The place of the message's key.
    pub at: Option<usize>,
    // The record under the message's key, blank where the key is not open.
    pub old: Record,
}

// What is left to the places.
#[derive(Clone, Copy)]
pub enum Left {
    Nothing,
    // A record is written at a place.
    Put(usize, Record),
    // The batch of this hour, which is seen and written in the places.
    Batch(u64),
}

// The answer, what is kept beside the places, and what is left to write.
#[derive(Clone, Copy)]
pub struct Ending {
    pub answer: Answer,
    pub account: Account,
    pub left: Left,
}
