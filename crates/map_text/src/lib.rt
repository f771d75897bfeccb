// A scene's tables of numbers, as the scene text has them, traced into a memory with room for 4,096 pixels
// and 1,024 hits, and the answer as text (document 01, `straymap`).
#![tactic(auto)]

mod answering;
mod mapping;
mod parts;

pub use answering::put_stray_map;
pub use mapping::put_map;

// Room for every answer: no text has a longer one (crates/theorems_room).
pub const MAX_ANSWER: usize = 131072;
