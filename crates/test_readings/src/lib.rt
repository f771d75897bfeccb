// Lines of scripts that change nothing but their answer: calls on detectors, and what stands where.
#![tactic(auto)]

use detector::Detector2D;
use host_detectors::{HostCrossing, HostPart};
use host_numbers::{HostChecked, HostReading};
use memory::{HIT_DOUBLES, HIT_WHOLES};
use rays::{Ray, Vec3};
use test_words::words::{Fault, Ran, done_if};
use test_words::{digest, lists, world};

fn tell_check(numbers: &mut [u64], r: HostChecked) -> Ran {
    world::tell_refusal(numbers, r.refusal, r.place);
    Ok(())
}

fn tell_reading(numbers: &mut [u64], r: HostReading) -> Ran {
    world::tell_refusal(numbers, r.refusal, r.place);
    world::tell_double(numbers, 2, r.value);
    Ok(())
}

fn tell_vector(numbers: &mut [u64], i: usize, v: Vec3) {
    world::tell_double(numbers, i, v.x);
    world::tell_double(numbers, i.wrapping_add(1), v.y);
    world::tell_double(numbers, i.wrapping_add(2), v.z);
}

fn tell_sizes(numbers: &mut [u64], d: Detector2D) {
    world::tell_double(numbers, 11, d.width_mm);
    world::tell_double(numbers, 12, d.height_mm);
    world::tell(numbers, 13, d.res_x as u64);
    world::tell(numbers, 14, d.res_y as u64);
}

fn tell_detector(numbers: &mut [u64], d: Detector2D) {
    tell_vector(numbers, 2, d.center);
    tell_vector(numbers, 5, d.normal);
    tell_vector(numbers, 8, d.up);
    tell_sizes(numbers, d);
    world::tell_double(numbers, 15, d.total_flux_watts);
    world::tell(numbers, 16, d.total_rays_hit as u64);
}

pub fn new(numbers: &mut [u64]) -> Ran {
    let r = host_detectors::nonseq_new_detector(
        world::given_vector(numbers, 0),
        world::given_vector(numbers, 3),
        world::given_vector(numbers, 6),
        world::given_double(numbers, 9),
        world::given_double(numbers, 10),
        world::given_low(numbers, 11),
        world::given_low(numbers, 12),
    );
    let d = r.detector;
    world::tell_refusal(numbers, r.refusal, r.place);
    tell_detector(numbers, d);
    Ok(())
}

fn tell_crossing(numbers: &mut [u64], r: HostCrossing) -> Ran {
    world::tell_refusal(numbers, r.refusal, r.place);
    world::tell(numbers, 2, r.crosses as u64);
    world::tell_double(numbers, 3, r.t);
    world::tell_double(numbers, 4, r.local_x);
    world::tell_double(numbers, 5, r.local_y);
    Ok(())
}

fn given_ray(numbers: &[u64]) -> Ray {
    Ray {
        origin: world::given_vector(numbers, 1),
        direction: world::given_vector(numbers, 4),
        wavelength_nm: world::given_double(numbers, 7),
        energy: world::given_double(numbers, 8),
    }
}

// One of the eight detectors, which the line gives first.
fn given_detector(values: &[f64], tags: &[u32], numbers: &[u64]) -> Result<Detector2D, Fault> {
    let k = world::given(numbers, 0);
    if k < 8 {
        return Ok(world::detector(values, tags, numbers, k));
    }
    Err(Fault::Past)
}

// Calls on it.
pub fn check(values: &[f64], tags: &[u32], numbers: &mut [u64]) -> Ran {
    let d = given_detector(values, tags, numbers)?;
    tell_check(numbers, host_detectors::nonseq_check_detector(d))
}

pub fn cross(values: &[f64], tags: &[u32], numbers: &mut [u64]) -> Ran {
    let d = given_detector(values, tags, numbers)?;
    let ray = given_ray(numbers);
    tell_crossing(numbers, host_detectors::nonseq_intersect_ray(d, ray))
}

pub fn area(values: &[f64], tags: &[u32], numbers: &mut [u64]) -> Ran {
    let d = given_detector(values, tags, numbers)?;
    tell_reading(numbers, host_detectors::nonseq_pixel_area_m2(d))
}

// Calls on all that are said to be there.
pub fn check_all(values: &[f64], tags: &[u32], numbers: &mut [u64]) -> Ran {
    let ds = world::all_detectors(values, tags, numbers);
    tell_check(numbers, host_detectors::nonseq_check_detectors(ds))
}

fn tell_part(numbers: &mut [u64], r: HostPart) -> Ran {
    world::tell_refusal(numbers, r.refusal, r.place);
    world::tell(numbers, 2, r.first as u64);
    world::tell(numbers, 3, r.pixels as u64);
    Ok(())
}

pub fn part(values: &[f64], tags: &[u32], numbers: &mut [u64]) -> Ran {
    let ds = world::all_detectors(values, tags, numbers);
    let asked = world::given_low(numbers, 0);
    tell_part(numbers, host_detectors::nonseq_pixels_of(ds, asked))
}

pub fn irradiance(values: &[f64], tags: &[u32], flux: &[f64], numbers: &mut [u64]) -> Ran {
    let ds = world::all_detectors(values, tags, numbers);
    let asked = world::given_low(numbers, 0);
    let px = world::given_low(numbers, 1);
    let py = world::given_low(numbers, 2);
    tell_reading(
        numbers,
        host_detectors::nonseq_irradiance_at(ds, asked, flux, px, py),
    )
}

pub fn pixel(flux: &[f64], hits: &[u32], numbers: &mut [u64]) -> Ran {
    let i = world::given(numbers, 0);
    world::tell_double(numbers, 0, lists::number_at(flux, i));
    world::tell(numbers, 1, lists::number_at(hits, i) as u64);
    done_if((i < flux.len()) & (i < hits.len()))
}

pub fn caught(numbers: &mut [u64]) -> Ran {
    let k = world::given(numbers, 0);
    if k < 8 {
        world::tell(numbers, 0, lists::number_at(numbers, world::TOTALS + k));
        world::tell(numbers, 1, lists::number_at(numbers, world::COUNTS + k));
        return Ok(());
    }
    Err(Fault::Past)
}

// The four doubles of a hit, and its four whole numbers behind them.
fn tell_hit(values: &[f64], tags: &[u32], numbers: &mut [u64]) {
    for i in 0..4 {
        world::tell_double(numbers, i, lists::number_at(values, i));
        world::tell(numbers, i + 4, u64::from(lists::number_at(tags, i)));
    }
}

pub fn hit(hit_values: &[f64], hit_tags: &[u32], numbers: &mut [u64]) -> Ran {
    let i = world::given_low(numbers, 0) as usize;
    let x = lists::part_from(hit_values, HIT_DOUBLES * i, HIT_DOUBLES);
    let n = lists::part_from(hit_tags, HIT_WHOLES * i, HIT_WHOLES);
    tell_hit(x, n, numbers);
    done_if((x.len() == HIT_DOUBLES) & (n.len() == HIT_WHOLES))
}

fn records(numbers: &[u64]) -> u64 {
    let mut h = digest::START;
    for k in 0..8 {
        h = digest::with(h, lists::number_at(numbers, world::TOTALS + k));
        h = digest::with(h, lists::number_at(numbers, world::COUNTS + k));
    }
    h
}

pub fn memory(
    flux: &[f64],
    hits: &[u32],
    hit_values: &[f64],
    hit_tags: &[u32],
    numbers: &mut [u64],
) -> Ran {
    let a = digest::with_list(records(numbers), flux);
    let b = digest::with_list(a, hits);
    let c = digest::with_list(b, hit_values);
    let d = digest::with_list(c, hit_tags);
    world::tell(
        numbers,
        0,
        digest::with(d, lists::number_at(numbers, world::USED)),
    );
    Ok(())
}
