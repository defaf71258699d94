// Document 01's worked examples: one line each, its label, a space, the amount in cents.
#![tactic(auto)]

mod examples;

use examples::example;

fn main(rt: HostRuntime) {
    for label in 1..=14 {
        // None of them is refused. A line that cannot be written is passed over.
        let _ = println!(rt; "W{label} {}", example(label).unwrap_or(0));
    }
}
