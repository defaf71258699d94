// What a book keeps beside its places, the sums of its records, and refusals 14 to 16, which see the totals alone.
#![tactic(auto)]

mod accounts;
mod credit_rows;
mod sums;
pub mod types;
