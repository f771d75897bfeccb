// Scripts of calls (crates/test_scripts/data/README.md): the words of their lines, and what they work on, as lists of
// numbers.
#![tactic(auto)]

pub mod digest;
pub mod files;
pub mod lists;
pub mod verbs;
pub mod words;
pub mod world;
