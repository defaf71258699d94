// What one walk over a book's places finds, place by place.
#![tactic(auto)]

mod codes;
mod steps;
mod summing;
pub mod types;

pub use codes::code;
pub use summing::sums_of;
