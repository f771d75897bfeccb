// The tracing of rays that come as a lent slice of structs: they are laid out in two flat lists, and traced as
// `nonseq_trace_rays` traces those.
ghost use Rattle.std.specs.Prelude.{◌≡◌, ◌+◌, ◌*◌, ◌≤◌, length};
ghost use Rattle.std.proofs.lemmas.List.Edits.{sets};
ghost use Rattle.memory.specs.Memory.{lent_memory};
ghost use Rattle.host_tracing.specs.Tracing.{left, host_trace_rays_of};
ghost use Rattle.host_tracing.specs.Flat.{ray_values_row, ray_tags_row, has_room_of, laid, put_ray_of, flatten_of, flat_values, flat_tags};
ghost use Rattle.given_rays.specs.Given.{ray_doubles, ray_wholes};
ghost use Rattle.fields.specs.Split.{front_of};

use crate::{HostConfig, HostTraced, nonseq_trace_rays};
use detectors::Detectors;
use given_rays::{GivenRays, RAY_DOUBLES, RAY_ROOM, RAY_ROOM_DOUBLES, RAY_ROOM_WHOLES, RAY_WHOLES};
use rays::Vec3;
use scene::{SolidNo, Solids};

// A ray as a host gives it: `media_count` of the eight media count.
#[repr(C)]
#[derive(Clone, Copy)]
pub struct GivenRay {
    pub origin: Vec3,
    pub direction: Vec3,
    pub wavelength_nm: f64,
    pub energy: f64,
    pub bounce_count: u32,
    pub media_count: u32,
    pub media: [SolidNo; 8],
}

// Whether ray n is among the first 4,097 and the lists are as long as those need.
#[tactic(auto, using(crate::proofs::Laying::room_yes, crate::proofs::Laying::room_short, crate::proofs::Laying::room_past))]
fn has_room(n: u32, ray_values: usize, ray_tags: usize) -> bool
    ensures { result ≡ has_room_of n ray_values ray_tags }
{
    n < RAY_ROOM && RAY_ROOM_DOUBLES <= ray_values && RAY_ROOM_WHOLES <= ray_tags
}

#[tactic(auto, unfolding(crate::specs::Flat::ray_values_row))]
fn put_ray_values(ray: GivenRay, at: usize, ray_values: &mut [f64])
    requires { at + ray_doubles ≤ length ray_values.old }
    ensures { ray_values.new ≡ sets ray_values.old at (ray_values_row ray) }
{
    let origin = ray.origin;
    let direction = ray.direction;
    ray_values[at] = origin.x;
    ray_values[at + 1] = origin.y;
    ray_values[at + 2] = origin.z;
    ray_values[at + 3] = direction.x;
    ray_values[at + 4] = direction.y;
    ray_values[at + 5] = direction.z;
    ray_values[at + 6] = ray.wavelength_nm;
    ray_values[at + 7] = ray.energy;
}

#[tactic(auto, using(crate::proofs::Laying::add_nine), unfolding(crate::specs::Flat::ray_tags_row))]
fn put_ray_tags(ray: GivenRay, at: usize, ray_tags: &mut [u32])
    requires { at + ray_wholes ≤ length ray_tags.old }
    ensures { ray_tags.new ≡ sets ray_tags.old at (ray_tags_row ray) }
{
    let media = ray.media;
    ray_tags[at] = ray.bounce_count;
    ray_tags[at + 1] = ray.media_count;
    ray_tags[at + 2] = media[0].0;
    ray_tags[at + 3] = media[1].0;
    ray_tags[at + 4] = media[2].0;
    ray_tags[at + 5] = media[3].0;
    ray_tags[at + 6] = media[4].0;
    ray_tags[at + 7] = media[5].0;
    ray_tags[at + 8] = media[6].0;
    ray_tags[at + 9] = media[7].0;
}

// A ray more, behind the n that were put.
fn put_ray(ray: GivenRay, n: u32, ray_values: &mut [f64], ray_tags: &mut [u32]) -> u32
    ensures { laid result ray_values.new ray_tags.new ≡ put_ray_of ray (laid n ray_values.old ray_tags.old) }
{
    if has_room(n, ray_values.len(), ray_tags.len()) {
        put_ray_values(ray, n as usize * RAY_DOUBLES, ray_values);
        put_ray_tags(ray, n as usize * RAY_WHOLES, ray_tags);
        return n + 1;
    }
    n
}

// The rays one behind the other; the answer is how many were put.
fn flatten(rays: &[GivenRay], ray_values: &mut [f64], ray_tags: &mut [u32]) -> u32
    ensures { laid result ray_values.new ray_tags.new ≡ flatten_of rays.now (laid 0 ray_values.old ray_tags.old) }
{
    let mut n = 0;
    for &ray in rays {
        n = put_ray(ray, n, ray_values, ray_tags);
    }
    n
}

// The tracing of the first of the rays, as many as they count, of lists that may be longer.
fn trace_flat(
    config: HostConfig,
    solids: Solids<'_>,
    given: GivenRays<'_>,
    detectors: Detectors,
    flux: &mut [f64],
    hits: &mut [u32],
    hit_values: &mut [f64],
    hit_tags: &mut [u32],
    used: usize,
) -> HostTraced
    ensures { left result flux.new hits.new hit_values.new hit_tags.new
        ≡ host_trace_rays_of config solids.entry.values.now solids.entry.tags.now solids.entry.count (front_of (given.entry.count * ray_doubles) given.entry.values.now) (front_of (given.entry.count * ray_wholes) given.entry.tags.now) given.entry.count
        (lent_memory detectors flux.old hits.old hit_values.old hit_tags.old used) }
{
    let a = given.count as usize * RAY_DOUBLES;
    let b = given.count as usize * RAY_WHOLES;
    nonseq_trace_rays(
        config,
        solids.values,
        solids.tags,
        solids.count,
        fields::front(given.values, a),
        fields::front(given.tags, b),
        given.count,
        detectors,
        flux,
        hits,
        hit_values,
        hit_tags,
        used,
    )
}

// As `nonseq_trace_rays` with the numbers of the rays, one ray behind the other. The two lists lie on the stack
// (426,088 bytes), with room for one ray more than the limit, so that 3 comes in its order.
pub fn nonseq_trace_given_rays(
    config: HostConfig,
    solid_values: &[f64],
    solid_tags: &[u32],
    count: u32,
    rays: &[GivenRay],
    detectors: Detectors,
    flux: &mut [f64],
    hits: &mut [u32],
    hit_values: &mut [f64],
    hit_tags: &mut [u32],
    used: usize,
) -> HostTraced
    ensures { left result flux.new hits.new hit_values.new hit_tags.new
        ≡ host_trace_rays_of config solid_values.now solid_tags.now count (flat_values rays.now) (flat_tags rays.now) (length rays.now)
        (lent_memory detectors flux.old hits.old hit_values.old hit_tags.old used) }
{
    let mut ray_values = [0.0; RAY_ROOM_DOUBLES];
    let mut ray_tags = [0u32; RAY_ROOM_WHOLES];
    let flat = flatten(rays, &mut ray_values, &mut ray_tags);
    let solids = Solids {
        values: solid_values,
        tags: solid_tags,
        count,
    };
    let given = GivenRays {
        values: &ray_values,
        tags: &ray_tags,
        count: flat,
    };
    trace_flat(
        config, solids, given, detectors, flux, hits, hit_values, hit_tags, used,
    )
}
