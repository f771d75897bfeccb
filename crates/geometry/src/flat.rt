// Plane and Disk: shapes on z = 0, met once.
ghost use Rattle.std.specs.Prelude.{◌≡◌};
ghost use Rattle.geometry.specs.Flat.{reach_of, from_axis_of, flat_distance_of, flat_hit_of, plane_at_of, intersect_plane_of, disk_at_of, intersect_disk_of};

use crate::LocalHit;
use rays::{Ray, Vec3};

// One coordinate at a distance.
#[tactic(auto, unfolding(crate::specs::Flat::reach_of))]
pub fn reach(o: f64, d: f64, t: f64) -> f64
    ensures { result ≡ reach_of o d t }
{
    o + t * d
}

// The squared distance from the z axis at a distance along a ray.
#[tactic(auto, unfolding(crate::specs::Flat::from_axis_of))]
pub fn from_axis(ray: Ray, t: f64) -> f64
    ensures { result ≡ from_axis_of ray t }
{
    let o = ray.origin;
    let d = ray.direction;
    let x = reach(o.x, d.x, t);
    let y = reach(o.y, d.y, t);
    x * x + y * y
}

// The distance to z = 0.
#[tactic(auto, unfolding(crate::specs::Flat::flat_distance_of))]
fn flat_distance(ray: Ray) -> Option<f64>
    ensures { result ≡ flat_distance_of ray }
{
    let dz = ray.direction.z;
    if doubles::is_under(dz, 1e-12) {
        return None;
    }
    let t = -ray.origin.z / dz;
    if t <= Ray::MIN_LOCAL_DISTANCE {
        return None;
    }
    Some(t)
}

// A hit at a distance, with the normal along z.
#[tactic(auto, unfolding(crate::specs::Flat::flat_hit_of))]
fn flat_hit(t: f64) -> Option<LocalHit>
    ensures { result ≡ flat_hit_of t }
{
    let normal = Vec3 {
        x: 0.0,
        y: 0.0,
        z: 1.0,
    };
    Some(LocalHit { t, normal })
}

#[tactic(auto, unfolding(crate::specs::Flat::plane_at_of))]
fn plane_at(half_width: f64, half_height: f64, ray: Ray, t: f64) -> Option<LocalHit>
    ensures { result ≡ plane_at_of half_width half_height ray t }
{
    let o = ray.origin;
    let d = ray.direction;
    let x = doubles::is_within(reach(o.x, d.x, t), half_width);
    let y = doubles::is_within(reach(o.y, d.y, t), half_height);
    if x & y {
        return flat_hit(t);
    }
    None
}

#[tactic(auto, unfolding(crate::specs::Flat::intersect_plane_of, crate::specs::Flat::plane_from))]
pub fn intersect_plane(half_width: f64, half_height: f64, ray: Ray) -> Option<LocalHit>
    ensures { result ≡ intersect_plane_of half_width half_height ray }
{
    let t = flat_distance(ray)?;
    plane_at(half_width, half_height, ray, t)
}

#[tactic(auto, unfolding(crate::specs::Flat::disk_at_of))]
fn disk_at(outer_radius: f64, inner_radius: f64, ray: Ray, t: f64) -> Option<LocalHit>
    ensures { result ≡ disk_at_of outer_radius inner_radius ray t }
{
    let r2 = from_axis(ray, t);
    if (r2 >= inner_radius * inner_radius) & (r2 <= outer_radius * outer_radius) {
        return flat_hit(t);
    }
    None
}

#[tactic(auto, unfolding(crate::specs::Flat::intersect_disk_of, crate::specs::Flat::disk_from))]
pub fn intersect_disk(outer_radius: f64, inner_radius: f64, ray: Ray) -> Option<LocalHit>
    ensures { result ≡ intersect_disk_of outer_radius inner_radius ray }
{
    let t = flat_distance(ray)?;
    disk_at(outer_radius, inner_radius, ray, t)
}
