// Box: what three pairs of parallel planes leave of a ray.
ghost use Rattle.std.specs.Prelude.{◌≡◌};
ghost use Rattle.rays.specs.Vectors.{vec3};
ghost use Rattle.geometry.specs.Slabs.{normal_of, outside_of, inside_of, side_hit_of, hit_within, intersect_box_of};
ghost use Rattle.geometry.specs.Spans.{first_face_of, along_of, later_of, sooner_of, near_ends_of, far_ends_of, side_for_of, near_side_of, far_side_of, hit_between_of};

use crate::LocalHit;
use rays::{Ray, Vec3};

// A side of a box.
#[derive(Clone, Copy)]
pub enum Side {
    MinusX,
    PlusX,
    MinusY,
    PlusY,
    MinusZ,
    PlusZ,
}

// The distances at which a ray enters between an axis's planes and leaves them.
#[derive(Clone, Copy)]
pub struct Span {
    pub near: f64,
    pub far: f64,
}

// An end of what the axes leave of a ray: after the first, after two of them, after all.
#[derive(Clone, Copy)]
pub struct Ends {
    pub one: f64,
    pub two: f64,
    pub all: f64,
}

fn vector(x: f64, y: f64, z: f64) -> Vec3
    ensures { result ≡ vec3 x y z }
{
    Vec3 { x, y, z }
}

impl Side {
    // The outward normal.
    #[tactic(auto, unfolding(crate::specs::Slabs::normal_of))]
    pub fn normal(self) -> Vec3
        ensures { result ≡ normal_of self }
    {
        match self {
            Side::MinusX => vector(-1.0, 0.0, 0.0),
            Side::PlusX => vector(1.0, 0.0, 0.0),
            Side::MinusY => vector(0.0, -1.0, 0.0),
            Side::PlusY => vector(0.0, 1.0, 0.0),
            Side::MinusZ => vector(0.0, 0.0, -1.0),
            Side::PlusZ => vector(0.0, 0.0, 1.0),
        }
    }
}

// Zeros for a normal where no side set the end.
#[tactic(auto, unfolding(crate::specs::Slabs::side_hit_of, crate::specs::Slabs::normal_by))]
fn side_hit(t: f64, side: Option<Side>) -> Option<LocalHit>
    ensures { result ≡ side_hit_of t side }
{
    let normal = match side {
        Some(s) => s.normal(),
        None => vector(0.0, 0.0, 0.0),
    };
    Some(LocalHit { t, normal })
}

// The place on its axis of the plane that a ray comes to first.
#[tactic(auto, unfolding(crate::specs::Spans::first_face_of))]
fn first_face(inverse: f64, h: f64) -> f64
    ensures { result ≡ first_face_of inverse h }
{
    if inverse >= 0.0 {
        return -h;
    }
    h
}

// Where a ray is between an axis's planes: everywhere, if it runs along them.
#[tactic(auto, unfolding(crate::specs::Spans::along_of))]
fn along(o: f64, d: f64, h: f64) -> Span
    ensures { result ≡ along_of o d h }
{
    if doubles::exceeds(d, 1e-12) {
        let inverse = 1.0 / d;
        let face = first_face(inverse, h);
        return Span {
            near: (face - o) * inverse,
            far: (-face - o) * inverse,
        };
    }
    let far = doubles::infinity();
    Span { near: -far, far }
}

#[tactic(auto, unfolding(crate::specs::Spans::later_of))]
fn later(t: f64, end: f64) -> f64
    ensures { result ≡ later_of t end }
{
    if t > end {
        return t;
    }
    end
}

#[tactic(auto, unfolding(crate::specs::Spans::sooner_of))]
fn sooner(t: f64, end: f64) -> f64
    ensures { result ≡ sooner_of t end }
{
    if t < end {
        return t;
    }
    end
}

#[tactic(auto, unfolding(crate::specs::Spans::near_ends_of))]
fn near_ends(x: Span, y: Span, z: Span) -> Ends
    ensures { result ≡ near_ends_of x y z }
{
    let one = later(x.near, -doubles::infinity());
    let two = later(y.near, one);
    let all = later(z.near, two);
    Ends { one, two, all }
}

#[tactic(auto, unfolding(crate::specs::Spans::far_ends_of))]
fn far_ends(x: Span, y: Span, z: Span) -> Ends
    ensures { result ≡ far_ends_of x y z }
{
    let one = sooner(x.far, doubles::infinity());
    let two = sooner(y.far, one);
    let all = sooner(z.far, two);
    Ends { one, two, all }
}

// One side for a ray that goes up its axis, another for one that goes down.
#[tactic(auto, unfolding(crate::specs::Spans::side_for_of))]
fn side_for(d: f64, up: Side, down: Side) -> Side
    ensures { result ≡ side_for_of d up down }
{
    if 1.0 / d >= 0.0 {
        return up;
    }
    down
}

// The side that set the near end: on a tie that of the earlier axis.
#[tactic(auto, unfolding(crate::specs::Spans::near_side_of))]
fn near_side(d: Vec3, x: Span, y: Span, z: Span, ends: Ends) -> Option<Side>
    ensures { result ≡ near_side_of d x y z ends }
{
    if z.near > ends.two {
        return Some(side_for(d.z, Side::MinusZ, Side::PlusZ));
    }
    if y.near > ends.one {
        return Some(side_for(d.y, Side::MinusY, Side::PlusY));
    }
    if x.near > -doubles::infinity() {
        return Some(side_for(d.x, Side::MinusX, Side::PlusX));
    }
    None
}

// The side that set the far end.
#[tactic(auto, unfolding(crate::specs::Spans::far_side_of))]
fn far_side(d: Vec3, x: Span, y: Span, z: Span, ends: Ends) -> Option<Side>
    ensures { result ≡ far_side_of d x y z ends }
{
    if z.far < ends.two {
        return Some(side_for(d.z, Side::PlusZ, Side::MinusZ));
    }
    if y.far < ends.one {
        return Some(side_for(d.y, Side::PlusY, Side::MinusY));
    }
    if x.far < doubles::infinity() {
        return Some(side_for(d.x, Side::PlusX, Side::MinusX));
    }
    None
}

// The near end, or the far one where the near end is behind. Sides are looked for only where one is met.
#[tactic(auto, unfolding(crate::specs::Spans::hit_between_of))]
fn hit_between(d: Vec3, x: Span, y: Span, z: Span) -> Option<LocalHit>
    ensures { result ≡ hit_between_of d x y z }
{
    let near = near_ends(x, y, z);
    let far = far_ends(x, y, z);
    if near.all > far.all {
        return None;
    }
    if far.all <= Ray::MIN_LOCAL_DISTANCE {
        return None;
    }
    if near.all > Ray::MIN_LOCAL_DISTANCE {
        return side_hit(near.all, near_side(d, x, y, z, near));
    }
    side_hit(far.all, far_side(d, x, y, z, far))
}

// Whether a ray along an axis's planes runs outside them.
#[tactic(auto, unfolding(crate::specs::Slabs::outside_of))]
fn outside(o: f64, d: f64, h: f64) -> bool
    ensures { result ≡ outside_of o d h }
{
    if doubles::exceeds(d, 1e-12) {
        return false;
    }
    doubles::exceeds(o, h)
}

// Where a ray that is outside none of the axes' planes meets the box.
#[tactic(auto, using(crate::proofs::Spans::inside_by))]
fn inside(half_x: f64, half_y: f64, half_z: f64, ray: Ray) -> Option<LocalHit>
    ensures { result ≡ hit_within (inside_of half_x half_y half_z ray) }
{
    let o = ray.origin;
    let d = ray.direction;
    let x = along(o.x, d.x, half_x);
    let y = along(o.y, d.y, half_y);
    let z = along(o.z, d.z, half_z);
    hit_between(d, x, y, z)
}

#[tactic(auto, unfolding(crate::specs::Slabs::intersect_box_of))]
pub fn intersect_box(half_x: f64, half_y: f64, half_z: f64, ray: Ray) -> Option<LocalHit>
    ensures { result ≡ intersect_box_of half_x half_y half_z ray }
{
    let o = ray.origin;
    let d = ray.direction;
    if outside(o.x, d.x, half_x) {
        return None;
    }
    if outside(o.y, d.y, half_y) {
        return None;
    }
    if outside(o.z, d.z, half_z) {
        return None;
    }
    inside(half_x, half_y, half_z, ray)
}
