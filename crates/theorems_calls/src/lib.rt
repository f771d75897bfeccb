// Theorems about split batches and lists of calls.
#![tactic(auto)]
