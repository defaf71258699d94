// Demands 1 to 3: theorems alone, over the definitions that the contracts of the book cite.
#![tactic(auto)]
