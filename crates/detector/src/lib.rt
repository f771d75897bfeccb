// Detectors (document 01, module 7), after detector.rs: a detector's record, its checks, where a ray
// crosses its face, which pixel a point lies in, and the area of a pixel. The maps are in `memory`.
#![tactic(auto)]

mod checks;
mod face;
mod pixels;

pub use face::{Crossing, Face};
pub use pixels::index_along;
use rays::Vec3;

// A detector's number, its place in the list of detectors. Never a solid's.
#[repr(C)]
#[derive(Clone, Copy)]
pub struct DetectorNo(pub u32);

// A detector as it was given, with what it has caught so far: the sum of its hits' fluxes in list order
// and their number. Its normal and up are as given; each call works the axes out.
#[repr(C)]
#[derive(Clone, Copy)]
pub struct Detector2D {
    pub center: Vec3,
    pub normal: Vec3,
    pub up: Vec3,
    pub width_mm: f64,
    pub height_mm: f64,
    pub res_x: u32,
    pub res_y: u32,
    pub total_flux_watts: f64,
    pub total_rays_hit: u32,
}

// Where on which detector light arrived, how much of which wavelength, after how many bounces,
// reflections and total reflections.
#[repr(C)]
#[derive(Clone, Copy)]
pub struct DetectorHit {
    pub local_x: f64,
    pub local_y: f64,
    pub flux_watts: f64,
    pub wavelength_nm: f64,
    pub detector: DetectorNo,
    pub bounce_count: u32,
    pub reflection_count: u32,
    pub tir_count: u32,
}

// The largest count: none is raised past it (13).
pub const MAX_COUNT: u32 = u32::MAX;

impl Detector2D {
    // The largest resolution.
    pub const MAX_RES: u32 = 4096;
}
