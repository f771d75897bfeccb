// Whether a stored line of crossings or recordings is what a detector answers.
ghost use Rattle.std.specs.Prelude.{◌≡◌};
ghost use Rattle.error.specs.Refusals.{as_checked};
ghost use Rattle.test_vectors.specs.DetectorLines.{whole_at_of, is_any_whole_of, grid_of, is_index_of, detector_in_of, ray_in_of, is_crossing_given_of, is_crossing_at_of, is_crossing_of, crossing_line_of, grid_in_of, is_recording_given_of, is_pixel_of, is_area_of, recording_line_of};

use crate::parts::{are_bits, double_at, has_shape, is_dash, is_double, vec_at};
use detector::{Crossing, Detector2D, index_along};
use error::Refusal;
use rays::{Ray, Vec3};

// Part k of a line as a decimal; 0 where it is malformed.
#[tactic(auto, unfolding(crate::specs::DetectorLines::whole_at_of))]
fn whole_at(line: &[u8], k: usize) -> u32
    ensures { result ≡ whole_at_of line.now k }
{
    fields::read_whole(fields::part(line, b' ', k)).unwrap_or(0)
}

// Whether part k of a line is a decimal at all.
#[tactic(auto, unfolding(crate::specs::DetectorLines::is_any_whole_of))]
fn is_any_whole(line: &[u8], k: usize) -> bool
    ensures { result ≡ is_any_whole_of line.now k }
{
    fields::read_whole(fields::part(line, b' ', k)).is_some()
}

// A detector at the origin that faces along z with y up.
#[tactic(auto, unfolding(crate::specs::DetectorLines::grid_of))]
fn grid(width_mm: f64, height_mm: f64, res_x: u32, res_y: u32) -> Detector2D
    ensures { result ≡ grid_of width_mm height_mm res_x res_y }
{
    Detector2D {
        center: Vec3 {
            x: 0.0,
            y: 0.0,
            z: 0.0,
        },
        normal: Vec3 {
            x: 0.0,
            y: 0.0,
            z: 1.0,
        },
        up: Vec3 {
            x: 0.0,
            y: 1.0,
            z: 0.0,
        },
        width_mm,
        height_mm,
        res_x,
        res_y,
        total_flux_watts: 0.0,
        total_rays_hit: 0,
    }
}

// Whether part k of a line is which of n steps along a size a place lies in.
#[tactic(auto, unfolding(crate::specs::DetectorLines::is_index_of))]
fn is_index(line: &[u8], k: usize, local: f64, size: f64, n: u32) -> bool
    ensures { result ≡ is_index_of line.now k local size n }
{
    let i = index_along(local, size, n);
    match fields::read_whole(fields::part(line, b' ', k)) {
        Some(a) => a as usize == i,
        None => false,
    }
}

// The detector of a crossing line.
#[tactic(auto, unfolding(crate::specs::DetectorLines::detector_in_of))]
fn detector_in(line: &[u8]) -> Detector2D
    ensures { result ≡ detector_in_of line.now }
{
    Detector2D {
        center: vec_at(line, 0),
        normal: vec_at(line, 3),
        up: vec_at(line, 6),
        width_mm: double_at(line, 9),
        height_mm: double_at(line, 10),
        res_x: whole_at(line, 11),
        res_y: whole_at(line, 12),
        total_flux_watts: 0.0,
        total_rays_hit: 0,
    }
}

#[tactic(auto, unfolding(crate::specs::DetectorLines::ray_in_of))]
fn ray_in(line: &[u8]) -> Ray
    ensures { result ≡ ray_in_of line.now }
{
    Ray {
        origin: vec_at(line, 13),
        direction: vec_at(line, 16),
        wavelength_nm: 0.0,
        energy: 0.0,
    }
}

// Whether the parts of a crossing line before "=" are what they are to be.
#[tactic(auto, unfolding(crate::specs::DetectorLines::is_crossing_given_of))]
fn is_crossing_given(line: &[u8]) -> bool
    ensures { result ≡ is_crossing_given_of line.now }
{
    let frame = are_bits(line, 0, 11);
    let res_x = is_any_whole(line, 11);
    let res_y = is_any_whole(line, 12);
    frame && res_x && res_y && are_bits(line, 13, 19)
}

#[tactic(auto, unfolding(crate::specs::DetectorLines::is_crossing_at_of))]
fn is_crossing_at(line: &[u8], d: Detector2D, c: Crossing) -> bool
    ensures { result ≡ is_crossing_at_of line.now d c }
{
    let t = is_double(line, 20, c.t);
    let x = is_double(line, 21, c.local_x);
    let y = is_double(line, 22, c.local_y);
    let px = is_index(line, 23, c.local_x, d.width_mm, d.res_x);
    let py = is_index(line, 24, c.local_y, d.height_mm, d.res_y);
    t && x && y && px && py
}

// Whether the parts from 19 on are what a detector's face answers.
#[tactic(auto, unfolding(crate::specs::DetectorLines::is_crossing_of))]
fn is_crossing(line: &[u8], d: Detector2D, c: Option<Crossing>) -> bool
    ensures { result ≡ is_crossing_of line.now d c }
{
    match c {
        Some(m) => has_shape(line, 25, 19) && is_crossing_at(line, d, m),
        None => has_shape(line, 21, 19) && is_dash(line, 20),
    }
}

#[tactic(auto, unfolding(crate::specs::DetectorLines::crossing_line_of))]
pub fn crossing_line(line: &[u8]) -> bool
    ensures { result ≡ crossing_line_of line.now }
{
    let d = detector_in(line);
    let c = d.face().intersect_ray(ray_in(line));
    is_crossing_given(line) && is_crossing(line, d, c)
}

// The detector of a recording line.
#[tactic(auto, unfolding(crate::specs::DetectorLines::grid_in_of))]
fn grid_in(line: &[u8]) -> Detector2D
    ensures { result ≡ grid_in_of line.now }
{
    let width = double_at(line, 0);
    let height = double_at(line, 1);
    grid(width, height, whole_at(line, 2), whole_at(line, 3))
}

// Whether a recording line has its parts, with "=" and those before it as they are to be.
#[tactic(auto, unfolding(crate::specs::DetectorLines::is_recording_given_of))]
fn is_recording_given(line: &[u8]) -> bool
    ensures { result ≡ is_recording_given_of line.now }
{
    let sizes = has_shape(line, 12, 7) && are_bits(line, 0, 2);
    let res_x = is_any_whole(line, 2);
    let res_y = is_any_whole(line, 3);
    sizes && res_x && res_y && are_bits(line, 4, 7)
}

#[tactic(auto, unfolding(crate::specs::DetectorLines::is_pixel_of))]
fn is_pixel(line: &[u8], d: Detector2D) -> bool
    ensures { result ≡ is_pixel_of line.now d }
{
    let px = is_index(line, 8, double_at(line, 4), d.width_mm, d.res_x);
    let py = is_index(line, 9, double_at(line, 5), d.height_mm, d.res_y);
    px && py
}

// Whether part 10 is the area that was answered. No line has a refusal.
#[tactic(auto, unfolding(crate::specs::DetectorLines::is_area_of))]
fn is_area(line: &[u8], a: Result<f64, Refusal>) -> bool
    ensures { result ≡ is_area_of line.now (as_checked a) }
{
    match a {
        Ok(x) => is_double(line, 10, x),
        Err(_) => false,
    }
}

// The irradiance is read after the flux was added to a pixel that held 0.0, so a flux of -0.0 gives 0.0.
#[tactic(auto, unfolding(crate::specs::DetectorLines::recording_line_of))]
pub fn recording_line(line: &[u8]) -> bool
    ensures { result ≡ recording_line_of line.now }
{
    let d = grid_in(line);
    let ok = is_recording_given(line) && is_pixel(line, d);
    let area = is_area(line, d.pixel_area_m2());
    let caught = 0.0 + double_at(line, 6);
    let irradiance = is_double(line, 11, d.irradiance(caught));
    ok && area && irradiance
}
