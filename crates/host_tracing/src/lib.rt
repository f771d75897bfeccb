// Document 01's tracing for hosts, under names that begin with `nonseq_`: rays as two flat lists, or as a lent slice of
// structs. Each call checks all that it is given. hosts/c/nonseq.h declares them for C.
#![tactic(auto)]

mod answers;
mod slices;
mod tracing;

pub use answers::{HostConfig, HostTraced};
pub use slices::{GivenRay, nonseq_trace_given_rays};
pub use tracing::nonseq_trace_rays;
