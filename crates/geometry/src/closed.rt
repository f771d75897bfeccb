// ClosedCylinder, an addition to the Rust (document 02, a): the side of a cylinder and its two ends. Each wall offers
// what qualifies on it, the smallest distance wins, and the normal is made of the winner alone.
ghost use Rattle.std.specs.Prelude.{◌≡◌};
ghost use Rattle.geometry.specs.Closed.{side_offer_of, end_distance_of, is_on_end_of, end_offer_of, nearer_offer_of, sides_of, ends_of, closest_wall_of, wall_normal_of, intersect_closed_cylinder_of};

use crate::LocalHit;
use crate::flat::from_axis;
use crate::round::{Roots, cylinder_roots, is_on_side, side_normal};
use rays::{Ray, Vec3};

// What a ray meets of it.
#[derive(Clone, Copy)]
pub enum Wall {
    Side,
    Lower,
    Upper,
}

// A candidate that qualifies: its distance, and the wall there.
#[derive(Clone, Copy)]
pub struct Offer {
    pub t: f64,
    pub wall: Wall,
}

// The side at t.
#[tactic(auto, unfolding(crate::specs::Closed::side_offer_of))]
fn side_offer(half_length: f64, ray: Ray, t: f64) -> Option<Offer>
    ensures { result ≡ side_offer_of half_length ray t }
{
    if is_on_side(half_length, ray, t) {
        return Some(Offer {
            t,
            wall: Wall::Side,
        });
    }
    None
}

// The distance to the plane of an end, which is its place on the z axis.
#[tactic(auto, unfolding(crate::specs::Closed::end_distance_of))]
fn end_distance(end: f64, ray: Ray) -> f64
    ensures { result ≡ end_distance_of end ray }
{
    (end - ray.origin.z) / ray.direction.z
}

// Whether a distance is above 1e-9 and its point within the radius.
#[tactic(auto, unfolding(crate::specs::Closed::is_on_end_of))]
fn is_on_end(radius: f64, ray: Ray, t: f64) -> bool
    ensures { result ≡ is_on_end_of radius ray t }
{
    if t > Ray::MIN_LOCAL_DISTANCE {
        return from_axis(ray, t) <= radius * radius;
    }
    false
}

// The end at a place on the z axis.
#[tactic(auto, unfolding(crate::specs::Closed::end_offer_of))]
fn end_offer(radius: f64, end: f64, ray: Ray, wall: Wall) -> Option<Offer>
    ensures { result ≡ end_offer_of radius end ray wall }
{
    let t = end_distance(end, ray);
    if doubles::abs(ray.direction.z) >= 1e-12 {
        if is_on_end(radius, ray, t) {
            return Some(Offer { t, wall });
        }
    }
    None
}

// The smaller distance; on a tie the first.
#[tactic(auto, unfolding(crate::specs::Closed::nearer_offer_of))]
fn nearer_offer(first: Option<Offer>, second: Option<Offer>) -> Option<Offer>
    ensures { result ≡ nearer_offer_of first second }
{
    match (first, second) {
        (Some(a), Some(b)) => {
            if b.t < a.t {
                return second;
            }
            first
        }
        (Some(_), None) => first,
        (None, _) => second,
    }
}

#[tactic(auto, unfolding(crate::specs::Closed::sides_of))]
fn sides(half_length: f64, ray: Ray, candidates: Option<Roots>) -> Option<Offer>
    ensures { result ≡ sides_of half_length ray candidates }
{
    let Roots { first, second } = candidates?;
    let near = side_offer(half_length, ray, first);
    let far = side_offer(half_length, ray, second);
    nearer_offer(near, far)
}

#[tactic(auto, unfolding(crate::specs::Closed::ends_of))]
fn ends(radius: f64, half_length: f64, ray: Ray) -> Option<Offer>
    ensures { result ≡ ends_of radius half_length ray }
{
    let lower = end_offer(radius, -half_length, ray, Wall::Lower);
    let upper = end_offer(radius, half_length, ray, Wall::Upper);
    nearer_offer(lower, upper)
}

// On a tie the side before the lower end before the upper.
#[tactic(auto, unfolding(crate::specs::Closed::closest_wall_of))]
fn closest_wall(radius: f64, half_length: f64, ray: Ray) -> Option<Offer>
    ensures { result ≡ closest_wall_of radius half_length ray }
{
    let side = sides(half_length, ray, cylinder_roots(radius, ray));
    nearer_offer(side, ends(radius, half_length, ray))
}

// Outward; of the side as of Cylinder.
#[tactic(auto, unfolding(crate::specs::Closed::wall_normal_of))]
fn wall_normal(radius: f64, ray: Ray, t: f64, wall: Wall) -> Vec3
    ensures { result ≡ wall_normal_of radius ray t wall }
{
    match wall {
        Wall::Side => side_normal(radius, ray, t),
        Wall::Lower => Vec3 {
            x: 0.0,
            y: 0.0,
            z: -1.0,
        },
        Wall::Upper => Vec3 {
            x: 0.0,
            y: 0.0,
            z: 1.0,
        },
    }
}

#[tactic(auto, unfolding(crate::specs::Closed::intersect_closed_cylinder_of, crate::specs::Closed::wall_hit))]
pub fn intersect_closed_cylinder(radius: f64, half_length: f64, ray: Ray) -> Option<LocalHit>
    ensures { result ≡ intersect_closed_cylinder_of radius half_length ray }
{
    let Offer { t, wall } = closest_wall(radius, half_length, ray)?;
    let normal = wall_normal(radius, ray, t, wall);
    Some(LocalHit { t, normal })
}
