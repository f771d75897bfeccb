// What a script works on (crates/test_scripts/data/README.md), as lists of numbers. `values` and `tags` hold the eight
// lists that a text is read into; `numbers` holds all else but the text and the lent slices: doubles stand there by
// their bits.
use crate::lists;
use detector::Detector2D;
use detectors::Detectors;
use given_rays::{RAY_ROOM_DOUBLES, RAY_ROOM_WHOLES};
use rays::Vec3;
use scene::{SOLID_DOUBLES, SOLID_WHOLES};

pub const SOLID_ROOM: usize = 33;

pub const RAY_ROOM: usize = given_rays::RAY_ROOM as usize;

pub const LENT_ROOM: usize = 8200;

pub const TEXT_ROOM: usize = 65537;

pub const WRITTEN_ROOM: usize = 131072;

pub const DETECTOR_DOUBLES: usize = 11;

pub const DETECTOR_WHOLES: usize = 2;

// Where the lists start in `values`, and how long that is.
pub const RUN_VALUES: usize = 0;

pub const SOLID_VALUES: usize = 7;

pub const DETECTOR_VALUES: usize = SOLID_VALUES + SOLID_ROOM * SOLID_DOUBLES;

pub const RAY_VALUES: usize = DETECTOR_VALUES + 8 * DETECTOR_DOUBLES;

pub const DOUBLES: usize = RAY_VALUES + RAY_ROOM_DOUBLES;

// The same in `tags`.
pub const RUN_TAGS: usize = 0;

pub const SOLID_TAGS: usize = 3;

pub const DETECTOR_TAGS: usize = SOLID_TAGS + SOLID_ROOM * SOLID_WHOLES;

pub const RAY_TAGS: usize = DETECTOR_TAGS + 8 * DETECTOR_WHOLES;

pub const WHOLES: usize = RAY_TAGS + RAY_ROOM_WHOLES;

// Places in `numbers`. Of the run over all files: the next line's place and number, whether it is inside a script, what
// was counted.
pub const AT: usize = 0;

pub const LINE: usize = 1;

pub const INSIDE: usize = 2;

pub const SCRIPTS: usize = 3;

pub const COMPARED: usize = 4;

pub const DIFFER: usize = 5;

// Scripts in the file, lines of the index.
pub const IN_FILE: usize = 82;

pub const INDEXED: usize = 83;

// Of the script, zeros where it begins.
pub const OF_SCRIPT: usize = 6;

pub const USED: usize = 6;

pub const SOLIDS: usize = 7;

pub const DETECTORS: usize = 8;

pub const FLUX_LENT: usize = 9;

pub const HITS_LENT: usize = 10;

pub const HIT_VALUES_LENT: usize = 11;

pub const HIT_TAGS_LENT: usize = 12;

pub const TEXT: usize = 13;

pub const WRITTEN: usize = 14;

// How many bytes behind a line belong to it.
pub const BEHIND: usize = 15;

pub const TOTALS: usize = 16;

pub const COUNTS: usize = 24;

// The last report: five powers, rays, interactions, seven tallies.
pub const REPORT: usize = 32;

// What a line gives, and what it is answered.
pub const GIVEN: usize = 46;

pub const TOLD: usize = 62;

pub const NUMBERS: usize = 84;

// What the line gives at place i: as it is, as a number below 2^32, as a double.
pub fn given(numbers: &[u64], i: usize) -> usize {
    lists::number_at(numbers, GIVEN.wrapping_add(i)) as usize
}

pub fn given_low(numbers: &[u64], i: usize) -> u32 {
    lists::low_at(numbers, GIVEN.wrapping_add(i))
}

pub fn given_double(numbers: &[u64], i: usize) -> f64 {
    lists::bits_at(numbers, GIVEN.wrapping_add(i))
}

pub fn given_vector(numbers: &[u64], i: usize) -> Vec3 {
    Vec3 {
        x: given_double(numbers, i),
        y: given_double(numbers, i.wrapping_add(1)),
        z: given_double(numbers, i.wrapping_add(2)),
    }
}

// Answers the line at place i: a number, a double.
pub fn tell(numbers: &mut [u64], i: usize, n: u64) {
    lists::put_number(numbers, TOLD.wrapping_add(i), n);
}

pub fn tell_double(numbers: &mut [u64], i: usize, x: f64) {
    tell(numbers, i, doubles::to_bits(x));
}

// The refusal and its place, which most answers begin with.
pub fn tell_refusal(numbers: &mut [u64], refusal: u32, place: u32) {
    tell(numbers, 0, refusal as u64);
    tell(numbers, 1, place as u64);
}

fn vector(values: &[f64], i: usize) -> Vec3 {
    Vec3 {
        x: lists::number_at(values, i),
        y: lists::number_at(values, i.wrapping_add(1)),
        z: lists::number_at(values, i.wrapping_add(2)),
    }
}

// Detector k of the eight.
pub fn detector(values: &[f64], tags: &[u32], numbers: &[u64], number: usize) -> Detector2D {
    let k = number.min(8);
    let a = DETECTOR_VALUES + k * DETECTOR_DOUBLES;
    let b = DETECTOR_TAGS + k * DETECTOR_WHOLES;
    Detector2D {
        center: vector(values, a),
        normal: vector(values, a + 3),
        up: vector(values, a + 6),
        width_mm: lists::number_at(values, a + 9),
        height_mm: lists::number_at(values, a + 10),
        res_x: lists::number_at(tags, b),
        res_y: lists::number_at(tags, b + 1),
        total_flux_watts: lists::bits_at(numbers, TOTALS + k),
        total_rays_hit: lists::low_at(numbers, COUNTS + k),
    }
}

pub fn all_detectors(values: &[f64], tags: &[u32], numbers: &[u64]) -> Detectors {
    Detectors {
        list: std::array::from_fn(|k| detector(values, tags, numbers, k)),
        count: lists::low_at(numbers, DETECTORS),
    }
}

// What the eight have caught, and how many hits are used.
pub fn put_records(numbers: &mut [u64], ds: Detectors, used: usize) {
    lists::put_number(numbers, USED, used as u64);
    for (k, d) in ds.list.iter().enumerate() {
        lists::put_number(numbers, TOTALS + k, doubles::to_bits(d.total_flux_watts));
        lists::put_number(numbers, COUNTS + k, u64::from(d.total_rays_hit));
    }
}
