// The scene text of document 01, `straymap`: four blocks of lines, read into the caller's slices.
#![tactic(auto)]

mod blocks;
mod cells;
mod media;
mod rows;
mod scene;

pub use cells::NO_FILTER;
pub use scene::{Counts, MAX_TEXT, read_scene};
