// The entries of `host_detectors` for C and Rust hosts: each calls the function of its name, and promises what it does.
#![tactic(auto)]

ghost use Rattle.detector.specs.Checks.{check_detector_of, new_detector_of};
ghost use Rattle.detector.specs.Faces.{intersect_ray_of};
ghost use Rattle.detector.specs.Pixels.{pixel_area_m2_of};
ghost use Rattle.detectors.specs.Detectors.{check_detectors_of, find_of};
ghost use Rattle.detectors.specs.Readings.{irradiance_at_of};
ghost use Rattle.host_detectors.specs.Detecting.{crossing_from, made_from};
ghost use Rattle.host_detectors.specs.Maps.{filtered, filtered_from, host_refilter_of, part_from, recorded, recorded_from};
ghost use Rattle.host_numbers.specs.Numbers.{checked_of, read_of};
ghost use Rattle.memory.specs.Memory.{lent_memory, record_hit_classified_of};
ghost use Rattle.std.specs.Prelude.{◌≡◌};

use detector::{Detector2D, DetectorHit};
use detectors::Detectors;
use host_detectors::{HostCrossing, HostDetector, HostFiltered, HostPart, HostRecorded};
use host_numbers::{HostChecked, HostReading};
use rays::{Ray, Vec3};

// 5 to 8 and 18.
#[unsafe(no_mangle)]
pub extern "C" fn nonseq_new_detector(
    center: Vec3,
    normal: Vec3,
    up: Vec3,
    width_mm: f64,
    height_mm: f64,
    res_x: u32,
    res_y: u32,
) -> HostDetector
    ensures { result ≡ made_from (new_detector_of center normal up width_mm height_mm res_x res_y) }
{
    host_detectors::nonseq_new_detector(center, normal, up, width_mm, height_mm, res_x, res_y)
}

// 5 to 8 and 18 of one detector.
#[unsafe(no_mangle)]
pub extern "C" fn nonseq_check_detector(detector: Detector2D) -> HostChecked
    ensures { result ≡ checked_of (check_detector_of detector 0) }
{
    host_detectors::nonseq_check_detector(detector)
}

// 3, then 5 to 8 and 18 of each.
#[unsafe(no_mangle)]
pub extern "C" fn nonseq_check_detectors(detectors: Detectors) -> HostChecked
    ensures { result ≡ checked_of (check_detectors_of detectors) }
{
    host_detectors::nonseq_check_detectors(detectors)
}

// Where a ray crosses a detector: 5 to 8 and 18, then 10.
#[unsafe(no_mangle)]
pub extern "C" fn nonseq_intersect_ray(detector: Detector2D, ray: Ray) -> HostCrossing
    ensures { result ≡ crossing_from (intersect_ray_of detector ray) }
{
    host_detectors::nonseq_intersect_ray(detector, ray)
}

// The area of a pixel in square metres: 5 to 8 and 18.
#[unsafe(no_mangle)]
pub extern "C" fn nonseq_pixel_area_m2(detector: Detector2D) -> HostReading
    ensures { result ≡ read_of (pixel_area_m2_of detector) }
{
    host_detectors::nonseq_pixel_area_m2(detector)
}

// 3, 5 to 8 and 18, 4 and 9 leave all as it is, and so do 12 and 13.
#[unsafe(no_mangle)]
pub extern "C" fn nonseq_record_hit_classified(
    detectors: Detectors,
    flux: &mut [f64],
    hits: &mut [u32],
    hit_values: &mut [f64],
    hit_tags: &mut [u32],
    used: usize,
    hit: DetectorHit,
) -> HostRecorded
    ensures { recorded result flux.new hits.new hit_values.new hit_tags.new
        ≡ recorded_from (record_hit_classified_of (lent_memory detectors flux.old hits.old hit_values.old hit_tags.old used) hit) }
{
    host_detectors::nonseq_record_hit_classified(
        detectors, flux, hits, hit_values, hit_tags, used, hit,
    )
}

// The work map zeroed and refilled with the hits of the asked detector that the filter lets through; All (0) leaves
// it: its map is the stored one's part (`nonseq_pixels_of`). A filter over 4 is refused by 17, then 3, 5 to 8 and 18,
// 4, 9; a refusal leaves the work map.
#[unsafe(no_mangle)]
pub extern "C" fn nonseq_refilter(
    detectors: Detectors,
    asked: u32,
    filter: u32,
    flux: &[f64],
    work: &mut [f64],
    hit_values: &[f64],
    hit_tags: &[u32],
    used: usize,
) -> HostFiltered
    ensures { filtered result work.new
        ≡ filtered_from (host_refilter_of detectors asked filter flux.now work.old hit_values.now hit_tags.now used) }
{
    host_detectors::nonseq_refilter(
        detectors, asked, filter, flux, work, hit_values, hit_tags, used,
    )
}

// Where the asked detector's pixels stand among those of all: 3, 5 to 8 and 18, 4.
#[unsafe(no_mangle)]
pub extern "C" fn nonseq_pixels_of(detectors: Detectors, asked: u32) -> HostPart
    ensures { result ≡ part_from (find_of detectors (record { 0 = asked })) }
{
    host_detectors::nonseq_pixels_of(detectors, asked)
}

// The irradiance of a pixel, in watts a square metre; 0 outside the resolution. 3, 5 to 8 and 18, 4, 9.
#[unsafe(no_mangle)]
pub extern "C" fn nonseq_irradiance_at(
    detectors: Detectors,
    asked: u32,
    flux: &[f64],
    px: u32,
    py: u32,
) -> HostReading
    ensures { result ≡ read_of (irradiance_at_of detectors (record { 0 = asked }) flux.now px py) }
{
    host_detectors::nonseq_irradiance_at(detectors, asked, flux, px, py)
}
