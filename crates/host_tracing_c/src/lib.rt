// The entries of `host_tracing` for C and Rust hosts: each calls the function of its name, and promises what it does.
#![tactic(auto)]

ghost use Rattle.host_tracing.specs.Flat.{flat_tags, flat_values};
ghost use Rattle.host_tracing.specs.Tracing.{host_trace_rays_of, left};
ghost use Rattle.memory.specs.Memory.{lent_memory};
ghost use Rattle.std.specs.Prelude.{length, ◌≡◌};

use detectors::Detectors;
use host_tracing::{GivenRay, HostConfig, HostTraced};

// As `nonseq_trace_rays` with the numbers of the rays, one ray behind the other. The two lists lie on the stack
// (426,088 bytes), with room for one ray more than the limit, so that 3 comes in its order.
#[unsafe(no_mangle)]
pub extern "C" fn nonseq_trace_given_rays(
    config: HostConfig,
    solid_values: &[f64],
    solid_tags: &[u32],
    count: u32,
    rays: &[GivenRay],
    detectors: Detectors,
    flux: &mut [f64],
    hits: &mut [u32],
    hit_values: &mut [f64],
    hit_tags: &mut [u32],
    used: usize,
) -> HostTraced
    ensures { left result flux.new hits.new hit_values.new hit_tags.new
        ≡ host_trace_rays_of config solid_values.now solid_tags.now count (flat_values rays.now) (flat_tags rays.now) (length rays.now)
        (lent_memory detectors flux.old hits.old hit_values.old hit_tags.old used) }
{
    host_tracing::nonseq_trace_given_rays(
        config,
        solid_values,
        solid_tags,
        count,
        rays,
        detectors,
        flux,
        hits,
        hit_values,
        hit_tags,
        used,
    )
}

// `trace::trace_rays`, if there is an ambient medium of the number given (else 17).
#[unsafe(no_mangle)]
pub extern "C" fn nonseq_trace_rays(
    config: HostConfig,
    solid_values: &[f64],
    solid_tags: &[u32],
    count: u32,
    ray_values: &[f64],
    ray_tags: &[u32],
    given: u32,
    detectors: Detectors,
    flux: &mut [f64],
    hits: &mut [u32],
    hit_values: &mut [f64],
    hit_tags: &mut [u32],
    used: usize,
) -> HostTraced
    ensures { left result flux.new hits.new hit_values.new hit_tags.new
        ≡ host_trace_rays_of config solid_values.now solid_tags.now count ray_values.now ray_tags.now given
        (lent_memory detectors flux.old hits.old hit_values.old hit_tags.old used) }
{
    host_tracing::nonseq_trace_rays(
        config,
        solid_values,
        solid_tags,
        count,
        ray_values,
        ray_tags,
        given,
        detectors,
        flux,
        hits,
        hit_values,
        hit_tags,
        used,
    )
}
