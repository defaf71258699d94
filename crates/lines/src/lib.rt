// The numbers of a line of text, for the programs that read one.
#![tactic(auto)]

pub mod numbers;
