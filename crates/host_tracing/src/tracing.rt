// The tracing of rays that come as two flat lists of numbers.
ghost use Rattle.std.specs.Prelude.{◌≡◌};
ghost use Rattle.memory.specs.Memory.{SameSlices, as_memory, lent_memory};
ghost use Rattle.host_tracing.specs.Tracing.{left, host_trace_rays_of};

use crate::answers::{no_medium, told, trace_config};
use crate::{HostConfig, HostTraced};
use detectors::Detectors;
use given_rays::GivenRays;
use material::OpticalMedium;
use memory::Memory;
use scene::Solids;

// `trace::trace_rays`, if there is an ambient medium of the number given (else 17).
pub(crate) fn traced(
    config: HostConfig,
    solids: Solids<'_>,
    given: GivenRays<'_>,
    memory: &mut Memory<'_>,
) -> HostTraced
    ensures same_slices { SameSlices memory.old memory.new }
    ensures value { left result memory.new.flux.now memory.new.hits.now memory.new.hit_values.now memory.new.hit_tags.now
        ≡ host_trace_rays_of config solids.entry.values.now solids.entry.tags.now solids.entry.count given.entry.values.now given.entry.tags.now given.entry.count
        (as_memory memory.old) }
{
    let numbered = OpticalMedium::numbered(
        config.ambient,
        config.a,
        config.b,
        config.c,
        config.d,
        config.e,
        config.f,
    );
    let Some(medium) = numbered else {
        return no_medium(memory.detectors, memory.used);
    };
    let r = trace::trace_rays(trace_config(config, medium), solids, given, memory);
    told(r, memory.detectors, memory.used)
}

// The same, the solids and the rays list by list.
pub fn nonseq_trace_rays(
    config: HostConfig,
    solid_values: &[f64],
    solid_tags: &[u32],
    count: u32,
    ray_values: &[f64],
    ray_tags: &[u32],
    given: u32,
    detectors: Detectors,
    flux: &mut [f64],
    hits: &mut [u32],
    hit_values: &mut [f64],
    hit_tags: &mut [u32],
    used: usize,
) -> HostTraced
    ensures { left result flux.new hits.new hit_values.new hit_tags.new
        ≡ host_trace_rays_of config solid_values.now solid_tags.now count ray_values.now ray_tags.now given
        (lent_memory detectors flux.old hits.old hit_values.old hit_tags.old used) }
{
    let mut memory = Memory {
        detectors,
        flux,
        hits,
        hit_values,
        hit_tags,
        used,
    };
    traced(
        config,
        Solids {
            values: solid_values,
            tags: solid_tags,
            count,
        },
        GivenRays {
            values: ray_values,
            tags: ray_tags,
            count: given,
        },
        &mut memory,
    )
}
