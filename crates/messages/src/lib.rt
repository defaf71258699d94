// What a message is, and what it asks of the record under its key, or refusals 2 to 13: the types, the definitions and their laws. `openings` and `moves` compute it.
#![tactic(auto)]

mod answers;
pub mod types;

pub use answers::{check_stage, zone_key};
