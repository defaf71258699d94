// The requirement of a transaction once it is posted, finished and billed, by kind.
#![tactic(auto)]

mod stages;

pub use stages::{billed, finished, posted};
