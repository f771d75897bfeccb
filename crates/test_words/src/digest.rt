// The digest of numbers in their order (crates/test_scripts/data/README.md). Lists count their length first.
pub const START: u64 = 0xcbf2_9ce4_8422_2325;

// A number that goes into a digest, as the word that stands for it there.
pub trait Digested {
    fn word(&self) -> u64;
}

impl Digested for f64 {
    fn word(&self) -> u64 {
        doubles::to_bits(*self)
    }
}

impl Digested for u32 {
    fn word(&self) -> u64 {
        u64::from(*self)
    }
}

impl Digested for u8 {
    fn word(&self) -> u64 {
        u64::from(*self)
    }
}

pub fn with(h: u64, w: u64) -> u64 {
    let x = (h ^ w).wrapping_mul(0x9e37_79b9_7f4a_7c15);
    x ^ (x >> 32)
}

pub fn with_list<T: Digested>(h: u64, xs: &[T]) -> u64 {
    let counted = with(h, xs.len() as u64);
    xs.iter().fold(counted, |r, x| with(r, x.word()))
}
