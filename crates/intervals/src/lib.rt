// Fifteen-minute scheduling bids (02, order 3): four interval curves, what turns them away, and their MWh sums.
#![tactic(auto)]

mod entry;
pub mod types;

pub use entry::curves;
pub use types::intervals_or_zero;
