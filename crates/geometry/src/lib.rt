// Shapes in their own coordinates and their place in the world (document 01, module 5), after
// geometry.rs, and the closed cylinder (document 02, a). Any sizes, any ray.
#![tactic(auto)]

mod closed;
mod contact;
mod flat;
mod round;
mod slab;
mod transform;

ghost use Rattle.std.specs.Prelude.{◌≡◌};
ghost use Rattle.geometry.specs.Shapes.{numbered_geometry_of, intersect_local_of};

pub use contact::Contact;
use rays::{Ray, Vec3};
pub use transform::Transform3D;

// A shape, with its sizes in millimetres.
#[derive(Clone, Copy)]
pub enum PrimitiveGeometry {
    // a rectangle on z = 0
    Plane {
        half_width: f64,
        half_height: f64,
    },
    // a disk on z = 0, with a hole of the inner radius
    Disk {
        outer_radius: f64,
        inner_radius: f64,
    },
    // around the origin
    Sphere {
        radius: f64,
    },
    // around the z axis, without ends
    Cylinder {
        radius: f64,
        half_length: f64,
    },
    // around the origin
    Box {
        half_x: f64,
        half_y: f64,
        half_z: f64,
    },
    // a cylinder with two ends
    ClosedCylinder {
        radius: f64,
        half_length: f64,
    },
}

// Where a ray meets a shape: the distance and the outward normal.
#[derive(Clone, Copy)]
pub struct LocalHit {
    pub t: f64,
    pub normal: Vec3,
}

impl PrimitiveGeometry {
    // The largest number of a shape.
    pub const LAST: u32 = 5;

    // The shape of the documents' number, if there is one, with as many of the sizes as it takes.
    #[tactic(auto, unfolding(crate::specs::Shapes::numbered_geometry_of))]
    pub fn numbered(number: u32, p: f64, q: f64, r: f64) -> Option<PrimitiveGeometry>
        ensures { result ≡ numbered_geometry_of number p q r }
    {
        match number {
            0 => Some(PrimitiveGeometry::Plane {
                half_width: p,
                half_height: q,
            }),
            1 => Some(PrimitiveGeometry::Disk {
                outer_radius: p,
                inner_radius: q,
            }),
            2 => Some(PrimitiveGeometry::Sphere { radius: p }),
            3 => Some(PrimitiveGeometry::Cylinder {
                radius: p,
                half_length: q,
            }),
            4 => Some(PrimitiveGeometry::Box {
                half_x: p,
                half_y: q,
                half_z: r,
            }),
            5 => Some(PrimitiveGeometry::ClosedCylinder {
                radius: p,
                half_length: q,
            }),
            _ => None,
        }
    }

    // Where a ray in the shape's coordinates first meets it.
    #[tactic(auto, unfolding(crate::specs::Shapes::intersect_local_of))]
    pub fn intersect_local(self, ray: Ray) -> Option<LocalHit>
        ensures { result ≡ intersect_local_of self ray }
    {
        match self {
            PrimitiveGeometry::Plane {
                half_width,
                half_height,
            } => flat::intersect_plane(half_width, half_height, ray),
            PrimitiveGeometry::Disk {
                outer_radius,
                inner_radius,
            } => flat::intersect_disk(outer_radius, inner_radius, ray),
            PrimitiveGeometry::Sphere { radius } => round::intersect_sphere(radius, ray),
            PrimitiveGeometry::Cylinder {
                radius,
                half_length,
            } => round::intersect_cylinder(radius, half_length, ray),
            PrimitiveGeometry::Box {
                half_x,
                half_y,
                half_z,
            } => slab::intersect_box(half_x, half_y, half_z, ray),
            PrimitiveGeometry::ClosedCylinder {
                radius,
                half_length,
            } => closed::intersect_closed_cylinder(radius, half_length, ray),
        }
    }
}
