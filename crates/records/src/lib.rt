// One transaction: its record, and when it is sound.
#![tactic(auto)]

pub mod records;
pub mod types;
