// Theorems about lists of the calls that hosts make.
#![tactic(auto)]
