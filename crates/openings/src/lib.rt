// What an open and a revise, of one curve or of four or of two sides, ask of the record under their key, or refusals 2 to 12. `old` is that record, blank where the key is not open.
#![tactic(auto)]

mod curves;
mod groups;
mod places;
mod sides;

pub use curves::{open_curves, revise_curves};
pub use groups::{open, revise};
pub use sides::{open_sides, revise_sides};
