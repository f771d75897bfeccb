// The filters of document 01, "Maps and lists", after detector.rs: which hits each lets through, and the
// map, the total and the count that they make; in `calls` the calls that check what they are given.
//
// What each lets through, by a hit's reflections and its total reflections:
//   0 All           every hit
//   1 SignalOnly    hits with neither
//   2 GhostsOnly    hits with at least one reflection; light that was only totally reflected is left out
//   3 TirOnly       hits with at least one total reflection, reflections or not
//   4 StrayLight    hits with either
#![tactic(auto)]

mod calls;
mod sifting;

ghost use Rattle.std.specs.Prelude.{◌≡◌};
ghost use Rattle.filter.specs.Filters.{numbered_filter_of, is_all_of, lets_of};

pub use calls::Held;
pub use sifting::{Tally, refill};

#[derive(Clone, Copy, PartialEq, Eq)]
pub enum RayPathFilter {
    All,
    SignalOnly,
    GhostsOnly,
    TirOnly,
    StrayLight,
}

impl RayPathFilter {
    #[tactic(auto, unfolding(crate::specs::Filters::numbered_filter_of))]
    pub fn numbered(number: u32) -> Option<RayPathFilter>
        ensures { result ≡ numbered_filter_of number }
    {
        match number {
            0 => Some(RayPathFilter::All),
            1 => Some(RayPathFilter::SignalOnly),
            2 => Some(RayPathFilter::GhostsOnly),
            3 => Some(RayPathFilter::TirOnly),
            4 => Some(RayPathFilter::StrayLight),
            _ => None,
        }
    }

    pub fn is_all(self) -> bool
        ensures { result ≡ is_all_of self }
    {
        self == RayPathFilter::All
    }

    // Whether it lets a hit with so many reflections and total reflections through.
    pub fn lets(self, reflections: u32, tirs: u32) -> bool
        ensures { result ≡ lets_of self reflections tirs }
    {
        match self {
            RayPathFilter::All => true,
            RayPathFilter::SignalOnly => reflections == 0 && tirs == 0,
            RayPathFilter::GhostsOnly => reflections >= 1,
            RayPathFilter::TirOnly => tirs > 0,
            RayPathFilter::StrayLight => reflections > 0 || tirs > 0,
        }
    }
}
