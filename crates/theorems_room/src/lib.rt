// Theorems about the length of an answer.
#![tactic(auto)]
