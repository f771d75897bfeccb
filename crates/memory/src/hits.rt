// The rows of a hit in the two slices of the hit list.
ghost use Rattle.std.specs.Prelude.{◌≡◌, ◌+◌, ◌*◌, ◌≤◌, length};
ghost use Rattle.std.proofs.lemmas.List.Edits.{sets};
ghost use Rattle.memory.specs.Memory.{read_hit_of, no_hit_of, hit_at_of, hit_doubles, hit_wholes, hit_values_row, hit_tags_row, are_hits_of};

use crate::{HIT_DOUBLES, HIT_WHOLES};
use detector::{DetectorHit, DetectorNo};

// Whether slices of these lengths hold whole rows, and of as many hits.
#[tactic(auto, unfolding(crate::specs::Memory::are_hits_of))]
pub(crate) fn are_hits(hit_values: usize, hit_tags: usize) -> bool
    ensures { result ≡ are_hits_of hit_values hit_tags }
{
    hit_values % HIT_DOUBLES == 0
        && hit_tags % HIT_WHOLES == 0
        && hit_values / HIT_DOUBLES == hit_tags / HIT_WHOLES
}

// Hit i of slices that hold it.
#[tactic(auto, using(crate::proofs::Rows::row_at_lem), unfolding(crate::specs::Memory::hit_from, crate::specs::Memory::read_hit_of))]
fn read_hit(hit_values: &[f64], hit_tags: &[u32], i: usize) -> DetectorHit
    requires { (hit_doubles * i + hit_doubles ≤ length hit_values.now) × (hit_wholes * i + hit_wholes ≤ length hit_tags.now) }
    ensures { result ≡ read_hit_of hit_values.now hit_tags.now i }
{
    let v = HIT_DOUBLES * i;
    let t = HIT_WHOLES * i;
    DetectorHit {
        local_x: hit_values[v],
        local_y: hit_values[v + 1],
        flux_watts: hit_values[v + 2],
        wavelength_nm: hit_values[v + 3],
        detector: DetectorNo(hit_tags[t]),
        bounce_count: hit_tags[t + 1],
        reflection_count: hit_tags[t + 2],
        tir_count: hit_tags[t + 3],
    }
}

// What stands for a hit that the slices do not hold: NaN and 0.
#[tactic(auto, unfolding(crate::specs::Memory::hit_from))]
fn no_hit() -> DetectorHit
    ensures { result ≡ no_hit_of }
{
    DetectorHit {
        local_x: f64::NAN,
        local_y: f64::NAN,
        flux_watts: f64::NAN,
        wavelength_nm: f64::NAN,
        detector: DetectorNo(0),
        bounce_count: 0,
        reflection_count: 0,
        tir_count: 0,
    }
}

// Hit i of the list.
#[tactic(auto, unfolding(crate::specs::Memory::hit_at_of))]
pub fn hit_at(hit_values: &[f64], hit_tags: &[u32], i: usize) -> DetectorHit
    ensures { result ≡ hit_at_of hit_values.now hit_tags.now i }
{
    if i < hit_values.len() / HIT_DOUBLES && i < hit_tags.len() / HIT_WHOLES {
        return read_hit(hit_values, hit_tags, i);
    }
    no_hit()
}

#[tactic(auto, unfolding(crate::specs::Memory::hit_values_row))]
pub(crate) fn put_hit_values(hit_values: &mut [f64], at: usize, h: DetectorHit)
    requires { at + hit_doubles ≤ length hit_values.old }
    ensures { hit_values.new ≡ sets hit_values.old at (hit_values_row h) }
{
    hit_values[at] = h.local_x;
    hit_values[at + 1] = h.local_y;
    hit_values[at + 2] = h.flux_watts;
    hit_values[at + 3] = h.wavelength_nm;
}

#[tactic(auto, unfolding(crate::specs::Memory::hit_tags_row))]
pub(crate) fn put_hit_tags(hit_tags: &mut [u32], at: usize, h: DetectorHit)
    requires { at + hit_wholes ≤ length hit_tags.old }
    ensures { hit_tags.new ≡ sets hit_tags.old at (hit_tags_row h) }
{
    hit_tags[at] = h.detector.0;
    hit_tags[at + 1] = h.bounce_count;
    hit_tags[at + 2] = h.reflection_count;
    hit_tags[at + 3] = h.tir_count;
}
