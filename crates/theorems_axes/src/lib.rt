// Theorems about a detector's axes.
#![tactic(auto)]
