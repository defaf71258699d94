// Laws that planners lean on: theorems alone, over the definitions that the contracts of the book and of the formulas cite.
#![tactic(auto)]
