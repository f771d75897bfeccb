// Theorems about tracing.
#![tactic(auto)]
