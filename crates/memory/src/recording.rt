// Recording: one hit added to its pixel, to its detector and to the hit list, wholly or not at all.
ghost use Rattle.std.specs.Prelude.{◌≡◌, true, ◌*◌, ◌^◌, ◌≤◌, ◌<◌, length};
ghost use Rattle.detectors.specs.Detectors.{max_detectors};
ghost use Rattle.memory.specs.Memory.{SameSlices, as_memory, as_outcome, cell_of, in_maps_of, put_of, record_of, are_hits_of, are_lengths_of, is_hit_list_of, is_memory, record_hit_classified_of};

use crate::hits::{are_hits, put_hit_tags, put_hit_values};
use crate::{HIT_DOUBLES, HIT_WHOLES};
use detector::{DetectorHit, MAX_COUNT};
use detectors::{Detectors, Placed};
use error::{NonSeqError, Refusal};

// The place of a hit's pixel among the pixels of all detectors; p is the hit's detector.
#[tactic(auto, unfolding(crate::specs::Memory::cell_of))]
fn cell(p: Placed, h: DetectorHit) -> usize
    requires { p.first ≤ max_detectors * 2 ^ 24 }
    ensures { result ≡ cell_of p h }
{
    p.first + p.detector.pixel_at(h.local_x, h.local_y)
}

// Whether a place lies in both maps, and the hit slices hold hits.
#[tactic(auto, unfolding(crate::specs::Memory::in_maps_of))]
fn in_maps(p: usize, flux: usize, hits: usize, hit_values: usize, hit_tags: usize) -> bool
    ensures { result ≡ in_maps_of p flux hits hit_values hit_tags }
{
    p < flux && p < hits && are_hits(hit_values, hit_tags)
}

// The memory, lent: the detectors' records, flux and hits of all pixels, the hit list and how many hits it has.
#[derive(Drop)]
pub struct Memory<'a> {
    pub detectors: Detectors,
    pub flux: &'a mut [f64],
    pub hits: &'a mut [u32],
    pub hit_values: &'a mut [f64],
    pub hit_tags: &'a mut [u32],
    pub used: usize,
}

impl Memory<'_> {
    // The hit into the pixel at a place, unless the list is full (12) or a count is at its largest (13).
    #[tactic(auto, unfolding(crate::specs::Memory::put_of, crate::specs::Memory::judged, crate::specs::Memory::capacity, crate::specs::Memory::written_at))]
    fn put(&mut self, h: DetectorHit, p: usize) -> Result<(), Refusal>
        requires { (h.detector.0 < max_detectors) × (p < length self.old.flux.now) × (p < length self.old.hits.now) × (are_hits_of (length self.old.hit_values.now) (length self.old.hit_tags.now) ≡ true) }
        ensures same_slices { SameSlices self.old self.new }
        ensures value { as_outcome result (as_memory self.new) ≡ put_of (as_memory self.old) p h }
    {
        let d = h.detector.0 as usize;
        if self.hit_values.len() / HIT_DOUBLES <= self.used {
            return Err(Refusal {
                error: NonSeqError::HitListFull,
                place: 0,
            });
        }
        if self.hits[p] == MAX_COUNT || self.detectors.list[d].total_rays_hit == MAX_COUNT {
            return Err(Refusal {
                error: NonSeqError::HitCountFull,
                place: 0,
            });
        }
        self.flux[p] += h.flux_watts;
        self.hits[p] += 1;
        put_hit_values(self.hit_values, HIT_DOUBLES * self.used, h);
        put_hit_tags(self.hit_tags, HIT_WHOLES * self.used, h);
        let detector = &mut self.detectors.list[d];
        detector.total_flux_watts += h.flux_watts;
        detector.total_rays_hit += 1;
        self.used += 1;
        Ok(())
    }

    // One hit into any memory. Only a memory that did not pass the checks is refused by 9.
    pub fn record(&mut self, h: DetectorHit) -> Result<(), Refusal>
        ensures same_slices { SameSlices self.old self.new }
        ensures value { as_outcome result (as_memory self.new) ≡ record_of (as_memory self.old) h }
    {
        let Some(d) = self.detectors.at(h.detector) else {
            return Err(Refusal {
                error: NonSeqError::InvalidSliceLength,
                place: 0,
            });
        };
        let p = cell(d, h);
        if !in_maps(
            p,
            self.flux.len(),
            self.hits.len(),
            self.hit_values.len(),
            self.hit_tags.len(),
        ) {
            return Err(Refusal {
                error: NonSeqError::InvalidSliceLength,
                place: 0,
            });
        }
        self.put(h, p)
    }

    // Whether the slices are the memory of the detectors (else 9).
    #[tactic(auto, unfolding(crate::specs::Memory::is_memory))]
    pub fn fits(&self) -> bool
        ensures { result ≡ is_memory (as_memory self.now) }
    {
        are_lengths(
            self.detectors,
            self.flux.len(),
            self.hits.len(),
            self.hit_values.len(),
            self.hit_tags.len(),
            self.used,
        )
    }

    // The recording that is open to hosts: 3, 5 to 8 and 18, 4 and 9 are judged first and leave all as it is, then
    // 12 and 13.
    #[tactic(auto, unfolding(crate::specs::Memory::record_hit_classified_of))]
    pub fn record_hit_classified(&mut self, h: DetectorHit) -> Result<(), Refusal>
        ensures same_slices { SameSlices self.old self.new }
        ensures value { as_outcome result (as_memory self.new) ≡ record_hit_classified_of (as_memory self.old) h }
    {
        self.detectors.find(h.detector)?;
        if !self.fits() {
            return Err(Refusal {
                error: NonSeqError::InvalidSliceLength,
                place: 0,
            });
        }
        self.record(h)
    }
}

// Whether slices of these lengths are a hit list with so many hits used.
#[tactic(auto, unfolding(crate::specs::Memory::is_hit_list_of))]
pub fn is_hit_list(hit_values: usize, hit_tags: usize, used: usize) -> bool
    ensures { result ≡ is_hit_list_of hit_values hit_tags used }
{
    are_hits(hit_values, hit_tags) && used <= hit_values / HIT_DOUBLES
}

// Whether slices of these lengths are the memory of these detectors (else 9).
#[tactic(auto, unfolding(crate::specs::Memory::are_lengths_of))]
pub fn are_lengths(
    detectors: Detectors,
    flux: usize,
    hits: usize,
    hit_values: usize,
    hit_tags: usize,
    used: usize,
) -> bool
    ensures { result ≡ are_lengths_of detectors flux hits hit_values hit_tags used }
{
    let pixels = detectors.all_pixels();
    flux == pixels && hits == pixels && is_hit_list(hit_values, hit_tags, used)
}
