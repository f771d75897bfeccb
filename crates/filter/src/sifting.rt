// The work map zeroed, and refilled from the hits of a detector that a filter lets through.
ghost use Rattle.std.specs.Prelude.{◌≡◌, ◌+◌, ◌^◌, ◌<◌, length, replicate};
ghost use Rattle.memory.specs.Memory.{hits_from};
ghost use Rattle.filter.specs.Filters.{as_map, add_at_of, passes_of, add_hit_of, sift_hit_of, refill_of};
ghost use Rattle.doubles.specs.Doubles.{#0};

use crate::RayPathFilter;
use detector::{Detector2D, DetectorHit, DetectorNo};
use memory::hit_at;

// The sum of the fluxes that were added to a map, in their order, and their number.
#[derive(Clone, Copy)]
pub struct Tally {
    pub total: f64,
    pub count: usize,
}

// Every pixel of the work map 0.
fn clear(work: &mut [f64])
    ensures { work.new ≡ replicate (length work.old) #0 }
{
    work.fill(0.0);
}

// Whether a hit is the asked detector's, and the filter lets it through.
#[tactic(auto, unfolding(crate::specs::Filters::passes_of))]
fn passes(filter: RayPathFilter, asked: DetectorNo, h: DetectorHit) -> bool
    ensures { result ≡ passes_of filter asked h }
{
    h.detector.0 == asked.0 && filter.lets(h.reflection_count, h.tir_count)
}

// A flux added to the pixel at a place, if the map has one there.
#[tactic(auto, using(crate::proofs::Sift::added_beyond), unfolding(crate::specs::Filters::add_at_of))]
fn add_at(work: &mut [f64], p: usize, flux: f64)
    ensures { work.new ≡ add_at_of work.old p flux }
{
    if p < work.len() {
        work[p] += flux;
    }
}

// One hit added to its pixel, to the total and to the count.
#[tactic(auto, unfolding(crate::specs::Filters::add_hit_of))]
fn add_hit(d: Detector2D, work: &mut [f64], t: Tally, h: DetectorHit) -> Tally
    requires { t.count + 1 < 2 ^ 64 }
    ensures { as_map result work.new ≡ add_hit_of d (as_map t work.old) h }
{
    add_at(work, d.pixel_at(h.local_x, h.local_y), h.flux_watts);
    Tally {
        total: t.total + h.flux_watts,
        count: t.count + 1,
    }
}

// The same, if the hit passes.
#[tactic(auto, unfolding(crate::specs::Filters::sift_hit_of))]
fn sift_hit(
    filter: RayPathFilter,
    asked: DetectorNo,
    d: Detector2D,
    work: &mut [f64],
    t: Tally,
    h: DetectorHit,
) -> Tally
    requires { t.count + 1 < 2 ^ 64 }
    ensures { as_map result work.new ≡ sift_hit_of (passes_of filter asked) d (as_map t work.old) h }
{
    if passes(filter, asked, h) {
        return add_hit(d, work, t, h);
    }
    t
}

// The work map from the first `used` hits of a list, in list order.
pub fn refill(
    filter: RayPathFilter,
    asked: DetectorNo,
    d: Detector2D,
    work: &mut [f64],
    hit_values: &[f64],
    hit_tags: &[u32],
    used: usize,
) -> Tally
    ensures { as_map result work.new
        ≡ refill_of (passes_of filter asked) d (length work.old) (hits_from hit_values.now hit_tags.now used 0) }
{
    clear(work);
    let mut t = Tally {
        total: 0.0,
        count: 0,
    };
    for i in 0..used {
        let h = hit_at(hit_values, hit_tags, i);
        t = sift_hit(filter, asked, d, work, t, h);
    }
    t
}
