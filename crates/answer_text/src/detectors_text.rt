// The lines of all detectors, and of all their pixels.
ghost use Rattle.std.specs.Prelude.{◌≡◌, ℕ, List};
ghost use Rattle.printing.specs.Printing.{out, put_all};
ghost use Rattle.filter.specs.declared.RayPathFilter.{RayPathFilter};
ghost use Rattle.answer_text.specs.Answer as spec;
ghost use Rattle.answer_text.specs.Answer.{as_held, detector_text, detector_map_text, each_from, detector_count_of};

use crate::maps;
use detectors::Detectors;
use filter::{Held, RayPathFilter};

// A count that is refused (3) is no count.
#[tactic(auto, unfolding(crate::specs::Answer::detector_count_of))]
fn detector_count(count: u32) -> u32
    ensures { result ≡ detector_count_of count }
{
    if count <= Detectors::MAX {
        return count;
    }
    0
}

// What is written of each detector.
pub(crate) trait Listed {
    ghost text: { spec.Held → RayPathFilter → ℕ → List ℕ };

    // That of detector d at place `at`, and the place after it.
    fn put(buf: &mut [u8], at: usize, held: Held<'_, '_>, d: u32, filter: RayPathFilter) -> usize
        ensures { out buf.new result ≡ put_all buf.old at (text (as_held held.entry) filter d) };
}

// Its line.
pub(crate) struct Line;

// The lines of its pixels.
pub(crate) struct Pixels;

impl Listed for Line {
    ghost text = { detector_text };

    fn put(buf: &mut [u8], at: usize, held: Held<'_, '_>, d: u32, filter: RayPathFilter) -> usize {
        maps::put_detector(buf, at, held, d, filter)
    }
}

impl Listed for Pixels {
    ghost text = { detector_map_text };

    fn put(buf: &mut [u8], at: usize, held: Held<'_, '_>, d: u32, filter: RayPathFilter) -> usize {
        maps::put_detector_map(buf, at, held, d, filter)
    }
}

// Of all detectors, one behind the other.
pub(crate) fn put_each<L: Listed>(
    buf: &mut [u8],
    at: usize,
    held: Held<'_, '_>,
    filter: RayPathFilter,
) -> usize
    ensures { out buf.new result ≡ put_all buf.old at
        (each_from (L.text (as_held held.entry) filter) (detector_count_of held.entry.detectors.count) 0) }
{
    let n = detector_count(held.detectors.count);
    let mut p = at;
    for d in 0..n {
        p = L::put(buf, p, held, d, filter);
    }
    p
}
