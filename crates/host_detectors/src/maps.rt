// The lent maps and the hit list: a hit recorded, a detector's map under a filter, where its pixels stand, the
// irradiance of one.
ghost use Rattle.std.specs.Prelude.{◌≡◌, List, Float};
ghost use Rattle.detectors.specs.Detectors.{find_of};
ghost use Rattle.detectors.specs.Readings.{irradiance_at_of};
ghost use Rattle.memory.specs.Memory.{lent_memory, record_hit_classified_of};
ghost use Rattle.filter.specs.Handed.{as_handed};
ghost use Rattle.host_numbers.specs.Numbers.{read_of};
ghost use Rattle.host_detectors.specs.Maps.{recorded_from, recorded, filtered_from, filtered, host_refilter_of, part_from};

use detector::{DetectorHit, DetectorNo};
use detectors::Detectors;
use error::{NonSeqError, Refusal};
use filter::{Held, RayPathFilter, Tally};
use host_numbers::{HostChecked, HostReading};
use memory::Memory;

// The detectors' records and the number of hits used go into the next call.
#[repr(C)]
#[derive(Clone, Copy)]
pub struct HostRecorded {
    pub refusal: u32,
    pub place: u32,
    pub used: usize,
    pub detectors: Detectors,
}

// The sum of the fluxes that the filter lets through, and how many hits they are; zeros where refused.
#[repr(C)]
#[derive(Clone, Copy)]
pub struct HostFiltered {
    pub refusal: u32,
    pub place: u32,
    pub total_flux_watts: f64,
    pub hit_count: usize,
}

// The pixels of a detector are `pixels` places from `first` on; zeros where refused.
#[repr(C)]
#[derive(Clone, Copy)]
pub struct HostPart {
    pub refusal: u32,
    pub place: u32,
    pub first: usize,
    pub pixels: usize,
}

// 3, 5 to 8 and 18, 4 and 9 leave all as it is, and so do 12 and 13.
pub fn nonseq_record_hit_classified(
    detectors: Detectors,
    flux: &mut [f64],
    hits: &mut [u32],
    hit_values: &mut [f64],
    hit_tags: &mut [u32],
    used: usize,
    hit: DetectorHit,
) -> HostRecorded
    ensures { recorded result flux.new hits.new hit_values.new hit_tags.new
        ≡ recorded_from (record_hit_classified_of (lent_memory detectors flux.old hits.old hit_values.old hit_tags.old used) hit) }
{
    let mut memory = Memory {
        detectors,
        flux,
        hits,
        hit_values,
        hit_tags,
        used,
    };
    let check = memory.record_hit_classified(hit);
    let HostChecked { refusal, place } = host_numbers::checked(check);
    HostRecorded {
        refusal,
        place,
        used: memory.used,
        detectors: memory.detectors,
    }
}

// A tally in the numbers that hosts get.
fn told(tally: Result<Tally, Refusal>) -> HostFiltered
    ensures { (work : List Float) → filtered result work ≡ filtered_from (as_handed tally work) }
{
    match tally {
        Ok(Tally { total, count }) => HostFiltered {
            refusal: 0,
            place: 0,
            total_flux_watts: total,
            hit_count: count,
        },
        Err(Refusal { error, place }) => HostFiltered {
            refusal: error.number(),
            place,
            total_flux_watts: 0.0,
            hit_count: 0,
        },
    }
}

// The work map zeroed and refilled with the hits of the asked detector that the filter lets through; All (0) leaves
// it: its map is the stored one's part (`nonseq_pixels_of`). A filter over 4 is refused by 17, then 3, 5 to 8 and 18,
// 4, 9; a refusal leaves the work map.
#[tactic(auto, unfolding(crate::specs::Maps::host_refilter_of, crate::specs::Maps::refilter_by))]
pub fn nonseq_refilter(
    detectors: Detectors,
    asked: u32,
    filter: u32,
    flux: &[f64],
    work: &mut [f64],
    hit_values: &[f64],
    hit_tags: &[u32],
    used: usize,
) -> HostFiltered
    ensures { filtered result work.new
        ≡ filtered_from (host_refilter_of detectors asked filter flux.now work.old hit_values.now hit_tags.now used) }
{
    let Some(by) = RayPathFilter::numbered(filter) else {
        return told(Err(Refusal {
            error: NonSeqError::InvalidSceneText,
            place: 0,
        }));
    };
    let held = Held {
        detectors,
        flux,
        hit_values,
        hit_tags,
        used,
    };
    told(held.refilter(DetectorNo(asked), by, work))
}

// Where the asked detector's pixels stand among those of all: 3, 5 to 8 and 18, 4.
pub fn nonseq_pixels_of(detectors: Detectors, asked: u32) -> HostPart
    ensures { result ≡ part_from (find_of detectors (record { 0 = asked })) }
{
    match detectors.find(DetectorNo(asked)) {
        Ok(p) => HostPart {
            refusal: 0,
            place: 0,
            first: p.first,
            pixels: p.detector.pixels(),
        },
        Err(Refusal { error, place }) => HostPart {
            refusal: error.number(),
            place,
            first: 0,
            pixels: 0,
        },
    }
}

// The irradiance of a pixel, in watts a square metre; 0 outside the resolution. 3, 5 to 8 and 18, 4, 9.
pub fn nonseq_irradiance_at(
    detectors: Detectors,
    asked: u32,
    flux: &[f64],
    px: u32,
    py: u32,
) -> HostReading
    ensures { result ≡ read_of (irradiance_at_of detectors (record { 0 = asked }) flux.now px py) }
{
    host_numbers::read(detectors::irradiance_at(detectors, DetectorNo(asked), flux, px, py))
}
