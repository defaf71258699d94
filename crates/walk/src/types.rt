// What the places passed so far have, from the last one on; each is free and zero, or holds a record within its ranges.
use credit::types::Sums;

#[derive(Clone, Copy)]
pub struct Walk {
    pub sums: Sums,
    // The lowest free place.
    pub free: Option<usize>,
    // The place of the message's key.
    pub at: Option<usize>,
}
