// Where a ray in the world meets a shape, in the shape's coordinates. A shape that lies behind the ray is
// told by signs, before the ray's direction is made a unit vector.
ghost use Rattle.std.specs.Prelude.{◌≡◌};
ghost use Rattle.geometry.specs.declared.PrimitiveGeometry.TheVariants.{Box};
ghost use Rattle.geometry.specs.Behind.{recedes_of, leaves_of, is_behind_of};
ghost use Rattle.geometry.specs.Contacts.{meet_along_of, meet_of};

use crate::{LocalHit, PrimitiveGeometry, transform};
use rays::{Mat4, Ray, Vec3};

#[derive(Clone, Copy)]
pub struct Contact {
    pub point: Vec3,
    pub hit: LocalHit,
}

// Whether a ray runs away from 0 along one axis.
#[tactic(auto, unfolding(crate::specs::Behind::recedes_of))]
fn recedes(o: f64, d: f64) -> bool
    ensures { result ≡ recedes_of o d }
{
    o * d > 0.0
}

// The same, from beyond the half size h.
#[tactic(auto, unfolding(crate::specs::Behind::leaves_of))]
fn leaves(o: f64, d: f64, h: f64) -> bool
    ensures { result ≡ leaves_of o d h }
{
    recedes(o, d) & doubles::exceeds(o, h)
}

// Of a box. All three axes are looked at, since which of them tells is hard to predict.
#[tactic(auto, unfolding(crate::specs::Behind::is_behind_of))]
fn leaves_box(half_x: f64, half_y: f64, half_z: f64, o: Vec3, d: Vec3) -> bool
    ensures { result ≡ is_behind_of (Box half_x half_y half_z) o d }
{
    let x = leaves(o.x, d.x, half_x);
    let y = leaves(o.y, d.y, half_y);
    let z = leaves(o.z, d.z, half_z);
    x | (y | z)
}

impl PrimitiveGeometry {
    // Whether the shape surely lies behind a ray from o along d, which may have any length.
    #[tactic(auto, unfolding(crate::specs::Behind::is_behind_of))]
    fn is_behind(self, o: Vec3, d: Vec3) -> bool
        ensures { result ≡ is_behind_of self o d }
    {
        match self {
            PrimitiveGeometry::Plane {
                half_width: _,
                half_height: _,
            } => recedes(o.z, d.z),
            PrimitiveGeometry::Disk {
                outer_radius: _,
                inner_radius: _,
            } => recedes(o.z, d.z),
            PrimitiveGeometry::Sphere { radius: _ } => false,
            PrimitiveGeometry::Cylinder {
                radius: _,
                half_length: _,
            } => false,
            PrimitiveGeometry::Box {
                half_x,
                half_y,
                half_z,
            } => leaves_box(half_x, half_y, half_z, o, d),
            PrimitiveGeometry::ClosedCylinder {
                radius: _,
                half_length: _,
            } => false,
        }
    }

    // By the ray in the shape's coordinates.
    #[tactic(auto, unfolding(crate::specs::Contacts::meet_along_of, crate::specs::Contacts::meet_by))]
    fn meet_along(self, along: Option<Ray>) -> Option<Contact>
        ensures { result ≡ meet_along_of self along }
    {
        let ray = along?;
        let hit = self.intersect_local(ray)?;
        Some(Contact {
            point: ray.at(hit.t),
            hit,
        })
    }

    // `inverse` is the inverse of the shape's matrix.
    #[tactic(auto, using(crate::proofs::Behind::miss_is), unfolding(crate::specs::Contacts::meet_of))]
    pub fn meet(self, inverse: Mat4, ray: Ray) -> Option<Contact>
        ensures { result ≡ meet_of self inverse ray }
    {
        let o = inverse.transform_point(ray.origin);
        let d = inverse.transform_direction(ray.direction);
        if self.is_behind(o, d) {
            return None;
        }
        self.meet_along(transform::ray_from(o, d, ray))
    }
}
