// A close (02, order 3): the paths and prices that it lists, what turns it away by itself, and what a bid then requires.
#![tactic(auto)]

mod lists;
mod requirements;
pub mod types;

pub use lists::{check_close, listed, quote_at};
pub use requirements::closed;
