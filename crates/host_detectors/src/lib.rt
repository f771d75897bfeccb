// Document 01's calls of module 7 for hosts, under names that begin with `nonseq_`: detectors made, checked and crossed,
// hits recorded, maps filtered, readings. Each call checks all that it is given. hosts/c/nonseq.h declares them for C.
#![tactic(auto)]

mod detecting;
mod maps;

pub use detecting::{
    HostCrossing, HostDetector, nonseq_check_detector, nonseq_check_detectors,
    nonseq_intersect_ray, nonseq_new_detector, nonseq_pixel_area_m2,
};
pub use maps::{
    HostFiltered, HostPart, HostRecorded, nonseq_irradiance_at, nonseq_pixels_of,
    nonseq_record_hit_classified, nonseq_refilter,
};
