// Stage 1: the bid MWh and the requirement of a group, for kinds 1 to 4.
#![tactic(auto)]

mod bids;
mod points;
pub mod types;

pub use bids::bid;
pub use points::price_exposure;
