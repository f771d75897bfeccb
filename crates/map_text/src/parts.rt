// What is given to the tracing, from the tables.
ghost use Rattle.std.specs.Prelude.{◌≡◌, ◌≤◌};
ghost use Rattle.rays.specs.Vectors.{vec3};
ghost use Rattle.map_text.specs.Tables.{value_of, whole_of, config_of, meant_of, detector_of, detectors_of, at_most_of};

use detector::Detector2D;
use detectors::Detectors;
use filter::RayPathFilter;
use material::OpticalMedium;
use rays::Vec3;
use scene::MAX_SOLIDS;
use scene_text::NO_FILTER;
use step::NonSeqTraceConfig;

// Doubles and whole numbers of the run and of each detector in their lists.
pub const RUN_DOUBLES: usize = 7;

pub const RUN_WHOLES: usize = 3;

pub const DETECTOR_DOUBLES: usize = 11;

pub const DETECTOR_WHOLES: usize = 2;

// Room for one solid more than the most, so that 3 comes in its order.
pub const SOLID_ROOM: u32 = MAX_SOLIDS + 1;

// The double at a place; NaN past the end.
#[tactic(auto, using(doubles::proofs::Floats::zero_by_zero), unfolding(crate::specs::Tables::value_of))]
fn value(l: &[f64], i: usize) -> f64
    ensures { result ≡ value_of l.now i }
{
    l.get(i).copied().unwrap_or(0.0 / 0.0)
}

// The whole number at a place; 0 past the end.
#[tactic(auto, unfolding(crate::specs::Tables::whole_of))]
pub(crate) fn whole(l: &[u32], i: usize) -> u32
    ensures { result ≡ whole_of l.now i }
{
    l.get(i).copied().unwrap_or(0)
}

// The rules of the run; an ambient medium that is none, which no text brings, reads as air.
#[tactic(auto, unfolding(crate::specs::Tables::config_of))]
pub(crate) fn config(run_values: &[f64], run_tags: &[u32]) -> NonSeqTraceConfig
    ensures { result ≡ config_of run_values.now run_tags.now }
{
    let ambient_medium = OpticalMedium::numbered(
        whole(run_tags, 2),
        value(run_values, 1),
        value(run_values, 2),
        value(run_values, 3),
        value(run_values, 4),
        value(run_values, 5),
        value(run_values, 6),
    )
    .unwrap_or(OpticalMedium::Air);
    NonSeqTraceConfig {
        max_bounces: whole(run_tags, 0),
        min_power_threshold: value(run_values, 0),
        ambient_medium,
    }
}

// The filter of a number. `-` means All, and so does a number that is no filter's, which no scene text has.
#[tactic(auto, unfolding(crate::specs::Tables::meant_of))]
pub(crate) fn meant(number: u32) -> RayPathFilter
    ensures { result ≡ meant_of number }
{
    if number == NO_FILTER {
        return RayPathFilter::All;
    }
    RayPathFilter::numbered(number).unwrap_or(RayPathFilter::All)
}

// At most so many.
#[tactic(auto, unfolding(crate::specs::Tables::at_most_of))]
pub(crate) fn at_most(most: u32, n: u32) -> u32
    ensures { (result ≡ at_most_of most n) × (result ≤ most) }
{
    n.min(most)
}

fn vector(l: &[f64], i: usize, j: usize, k: usize) -> Vec3
    ensures { result ≡ vec3 (value_of l.now i) (value_of l.now j) (value_of l.now k) }
{
    Vec3 {
        x: value(l, i),
        y: value(l, j),
        z: value(l, k),
    }
}

// Detector i of eight.
#[tactic(auto, unfolding(crate::specs::Tables::detector_of))]
fn detector(detector_values: &[f64], detector_tags: &[u32], i: u32) -> Detector2D
    ensures { result ≡ detector_of detector_values.now detector_tags.now i }
{
    let j = i as usize * DETECTOR_DOUBLES;
    let k = i as usize * DETECTOR_WHOLES;
    Detector2D {
        center: vector(detector_values, j, j + 1, j + 2),
        normal: vector(detector_values, j + 3, j + 4, j + 5),
        up: vector(detector_values, j + 6, j + 7, j + 8),
        width_mm: value(detector_values, j + 9),
        height_mm: value(detector_values, j + 10),
        res_x: whole(detector_tags, k),
        res_y: whole(detector_tags, k + 1),
        total_flux_watts: 0.0,
        total_rays_hit: 0,
    }
}

#[tactic(auto, unfolding(crate::specs::Tables::detectors_of))]
pub(crate) fn detectors(detector_values: &[f64], detector_tags: &[u32], count: u32) -> Detectors
    ensures { result ≡ detectors_of detector_values.now detector_tags.now count }
{
    Detectors {
        list: [
            detector(detector_values, detector_tags, 0),
            detector(detector_values, detector_tags, 1),
            detector(detector_values, detector_tags, 2),
            detector(detector_values, detector_tags, 3),
            detector(detector_values, detector_tags, 4),
            detector(detector_values, detector_tags, 5),
            detector(detector_values, detector_tags, 6),
            detector(detector_values, detector_tags, 7),
        ],
        count,
    }
}
