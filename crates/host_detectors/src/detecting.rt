// Detectors: made, checked, crossed by a ray, and the area of a pixel.
ghost use Rattle.std.specs.Prelude.{◌≡◌};
ghost use Rattle.error.specs.Refusals.{refused_at};
ghost use Rattle.detector.specs.Checks.{check_detector_of, new_detector_of};
ghost use Rattle.detector.specs.Faces.{intersect_ray_of};
ghost use Rattle.detector.specs.Pixels.{pixel_area_m2_of};
ghost use Rattle.detectors.specs.Detectors.{check_detectors_of};
ghost use Rattle.host_numbers.specs.Numbers.{checked_of, read_of};
ghost use Rattle.host_detectors.specs.Detecting.{no_detector_of, made_from, crossing_from};

use detector::Detector2D;
use detectors::Detectors;
use error::Refusal;
use host_numbers::{HostChecked, HostReading};
use rays::{Ray, Vec3};

// A detector that has caught nothing, all zeros where it is refused.
#[repr(C)]
#[derive(Clone, Copy)]
pub struct HostDetector {
    pub refusal: u32,
    pub place: u32,
    pub detector: Detector2D,
}

// `crosses` is 1 where the ray meets the face, at the distance `t` and the place (`local_x`, `local_y`); all zeros
// where it does not or is refused.
#[repr(C)]
#[derive(Clone, Copy)]
pub struct HostCrossing {
    pub refusal: u32,
    pub place: u32,
    pub crosses: u32,
    pub t: f64,
    pub local_x: f64,
    pub local_y: f64,
}

#[tactic(auto, unfolding(crate::specs::Detecting::no_detector_of))]
fn no_detector() -> Detector2D
    ensures { result ≡ no_detector_of }
{
    let v = Vec3 {
        x: 0.0,
        y: 0.0,
        z: 0.0,
    };
    Detector2D {
        center: v,
        normal: v,
        up: v,
        width_mm: 0.0,
        height_mm: 0.0,
        res_x: 0,
        res_y: 0,
        total_flux_watts: 0.0,
        total_rays_hit: 0,
    }
}

// What stands where nothing is crossed, or where it is refused.
fn no_crossing(refusal: u32, place: u32) -> HostCrossing
    ensures { result ≡ crossing_from (refused_at refusal place) }
{
    HostCrossing {
        refusal,
        place,
        crosses: 0,
        t: 0.0,
        local_x: 0.0,
        local_y: 0.0,
    }
}

// 5 to 8 and 18.
pub fn nonseq_new_detector(
    center: Vec3,
    normal: Vec3,
    up: Vec3,
    width_mm: f64,
    height_mm: f64,
    res_x: u32,
    res_y: u32,
) -> HostDetector
    ensures { result ≡ made_from (new_detector_of center normal up width_mm height_mm res_x res_y) }
{
    match Detector2D::new(center, normal, up, width_mm, height_mm, res_x, res_y) {
        Ok(detector) => HostDetector {
            refusal: 0,
            place: 0,
            detector,
        },
        Err(Refusal { error, place }) => HostDetector {
            refusal: error.number(),
            place,
            detector: no_detector(),
        },
    }
}

// 5 to 8 and 18 of one detector.
pub fn nonseq_check_detector(detector: Detector2D) -> HostChecked
    ensures { result ≡ checked_of (check_detector_of detector 0) }
{
    host_numbers::checked(detector.check(0))
}

// 3, then 5 to 8 and 18 of each.
pub fn nonseq_check_detectors(detectors: Detectors) -> HostChecked
    ensures { result ≡ checked_of (check_detectors_of detectors) }
{
    host_numbers::checked(detectors.check())
}

// Where a ray crosses a detector: 5 to 8 and 18, then 10.
pub fn nonseq_intersect_ray(detector: Detector2D, ray: Ray) -> HostCrossing
    ensures { result ≡ crossing_from (intersect_ray_of detector ray) }
{
    match detector.intersect_ray(ray) {
        Ok(Some(c)) => HostCrossing {
            refusal: 0,
            place: 0,
            crosses: 1,
            t: c.t,
            local_x: c.local_x,
            local_y: c.local_y,
        },
        Ok(None) => no_crossing(0, 0),
        Err(Refusal { error, place }) => no_crossing(error.number(), place),
    }
}

// The area of a pixel in square metres: 5 to 8 and 18.
pub fn nonseq_pixel_area_m2(detector: Detector2D) -> HostReading
    ensures { result ≡ read_of (pixel_area_m2_of detector) }
{
    host_numbers::read(detector.pixel_area_m2())
}
