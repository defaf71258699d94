// The batch of an hour (02, order 3): fifteen-minute bids that a close moves to stage 2 or removes, as one.
#![tactic(auto)]

mod batch;
mod closing;
pub mod types;

pub use closing::close;
