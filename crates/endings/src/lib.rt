// How a message ends: refusal 1, the refusal that its plan has, 14 to 16, or what it asks for; and what is answered.
#![tactic(auto)]

mod answers;
mod endings;
pub mod types;
