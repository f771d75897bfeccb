// Parts of a text between separators, and the numbers written in them (document 01, `straymap`:
// "Doubles are 1 to 16 lower-case hex digits of their bits", "Other numbers are decimal").
#![tactic(auto)]

mod number;
mod split;

pub use number::{read_bits, read_whole};
pub use split::{count_parts, end_at, front, is_byte, part};
