// The memory that maps are made of (document 01, "Maps and lists"), after detector.rs: the detectors'
// records, the flux and the hits of all pixels, and the hit list, lent by the caller. Filters are in
// `filter`.
#![tactic(auto)]

mod hits;
mod recording;

pub use hits::hit_at;
pub use recording::{Memory, are_lengths, is_hit_list};

// Doubles and whole numbers of each hit in the two slices of the hit list.
pub const HIT_DOUBLES: usize = 4;

pub const HIT_WHOLES: usize = 4;

// Pixels and hits of the memory that a scene text is traced into.
pub const TEXT_PIXELS: usize = 4096;

pub const TEXT_HITS: usize = 1024;
