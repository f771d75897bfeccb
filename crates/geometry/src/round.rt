// Sphere and Cylinder: shapes whose candidates are the roots of a quadratic equation.
ghost use Rattle.std.specs.Prelude.{◌≡◌};
ghost use Rattle.geometry.specs.Away.{is_away_of};
ghost use Rattle.geometry.specs.Round.{solve_of, sphere_at_of, sphere_among_of, intersect_sphere_of, side_normal_of, is_on_side_of, cylinder_at_of, cylinder_among_of, cylinder_roots_of, intersect_cylinder_of};

use crate::LocalHit;
use crate::flat::reach;
use rays::{Ray, Vec3};

// The roots of a quadratic equation, in the order in which they are tried.
#[derive(Clone, Copy)]
pub struct Roots {
    pub first: f64,
    pub second: f64,
}

// Of a t^2 + b t + c.
#[tactic(auto, unfolding(crate::specs::Round::solve_of))]
fn solve(a: f64, b: f64, c: f64) -> Option<Roots>
    ensures { result ≡ solve_of a b c }
{
    let disc = b * b - 4.0 * a * c;
    if disc < 0.0 {
        return None;
    }
    let q = doubles::root_elsewhere(disc);
    Some(Roots {
        first: (-b - q) / (2.0 * a),
        second: (-b + q) / (2.0 * a),
    })
}

// The candidate at t on a sphere.
#[tactic(auto, unfolding(crate::specs::Round::sphere_at_of))]
fn sphere_at(radius: f64, ray: Ray, t: f64) -> Option<LocalHit>
    ensures { result ≡ sphere_at_of radius ray t }
{
    if t > Ray::MIN_LOCAL_DISTANCE {
        let normal = ray.at(t).divide(radius);
        return Some(LocalHit { t, normal });
    }
    None
}

#[tactic(auto, unfolding(crate::specs::Round::sphere_among_of, crate::specs::Hits::first_there))]
fn sphere_among(radius: f64, ray: Ray, candidates: Option<Roots>) -> Option<LocalHit>
    ensures { result ≡ sphere_among_of radius ray candidates }
{
    let Roots { first, second } = candidates?;
    sphere_at(radius, ray, first).or_else(|| sphere_at(radius, ray, second))
}

// Whether a ray outside a sphere surely runs away from it, told by b and c before any root: the root of b * b - 4 a c
// is then at most b. The bits say that b is above 0 and that its square is no subnormal number and no infinity.
#[tactic(auto, unfolding(crate::specs::Away::is_away_of))]
fn is_away(b: f64, c: f64) -> bool
    ensures { result ≡ is_away_of b c }
{
    if c > 0.0 {
        let bits = doubles::to_bits(b);
        if 0x2000_0000_0000_0000 <= bits {
            return bits < 0x5000_0000_0000_0000;
        }
    }
    false
}

// A negative radius counts as its absolute value.
#[tactic(auto, using(crate::proofs::Receding::sphere_passed, crate::proofs::Receding::sphere_rooted))]
pub fn intersect_sphere(radius: f64, ray: Ray) -> Option<LocalHit>
    ensures { result ≡ intersect_sphere_of radius ray }
{
    let r = doubles::abs(radius);
    let o = ray.origin;
    let d = ray.direction;
    let a = d.dot(d);
    let b = 2.0 * o.dot(d);
    let c = o.dot(o) - radius * radius;
    if is_away(b, c) {
        return None;
    }
    sphere_among(r, ray, solve(a, b, c))
}

// The normal of a cylinder's side at a distance along a ray. A negative radius turns it round.
#[tactic(auto, unfolding(crate::specs::Round::side_normal_of))]
pub fn side_normal(radius: f64, ray: Ray, t: f64) -> Vec3
    ensures { result ≡ side_normal_of radius ray t }
{
    let o = ray.origin;
    let d = ray.direction;
    Vec3 {
        x: reach(o.x, d.x, t) / radius,
        y: reach(o.y, d.y, t) / radius,
        z: 0.0,
    }
}

// Whether a distance is above 1e-9 and its z at most the half length in size.
#[tactic(auto, unfolding(crate::specs::Round::is_on_side_of))]
pub fn is_on_side(half_length: f64, ray: Ray, t: f64) -> bool
    ensures { result ≡ is_on_side_of half_length ray t }
{
    if t > Ray::MIN_LOCAL_DISTANCE {
        return doubles::is_within(reach(ray.origin.z, ray.direction.z, t), half_length);
    }
    false
}

// The candidate at t on a cylinder.
#[tactic(auto, unfolding(crate::specs::Round::cylinder_at_of))]
fn cylinder_at(radius: f64, half_length: f64, ray: Ray, t: f64) -> Option<LocalHit>
    ensures { result ≡ cylinder_at_of radius half_length ray t }
{
    if is_on_side(half_length, ray, t) {
        let normal = side_normal(radius, ray, t);
        return Some(LocalHit { t, normal });
    }
    None
}

#[tactic(auto, unfolding(crate::specs::Round::cylinder_among_of, crate::specs::Hits::first_there))]
fn cylinder_among(
    radius: f64,
    half_length: f64,
    ray: Ray,
    candidates: Option<Roots>,
) -> Option<LocalHit>
    ensures { result ≡ cylinder_among_of radius half_length ray candidates }
{
    let Roots { first, second } = candidates?;
    cylinder_at(radius, half_length, ray, first).or_else(|| cylinder_at(
        radius,
        half_length,
        ray,
        second,
    ))
}

// The distances at which a ray is a radius away from the z axis.
#[tactic(auto, unfolding(crate::specs::Round::cylinder_roots_of))]
pub fn cylinder_roots(radius: f64, ray: Ray) -> Option<Roots>
    ensures { result ≡ cylinder_roots_of radius ray }
{
    let o = ray.origin;
    let d = ray.direction;
    let a = d.x * d.x + d.y * d.y;
    if a < 1e-12 {
        return None;
    }
    let b = 2.0 * (o.x * d.x + o.y * d.y);
    let c = o.x * o.x + o.y * o.y - radius * radius;
    solve(a, b, c)
}

#[tactic(auto, unfolding(crate::specs::Round::intersect_cylinder_of))]
pub fn intersect_cylinder(radius: f64, half_length: f64, ray: Ray) -> Option<LocalHit>
    ensures { result ≡ intersect_cylinder_of radius half_length ray }
{
    cylinder_among(radius, half_length, ray, cylinder_roots(radius, ray))
}
