// Vectors, rays and 4 by 4 matrices of doubles (document 01, module 3), by value. Sums go left to
// right and never fuse a product.
#![tactic(auto)]

mod matrix;
mod vector;

ghost use Rattle.std.specs.Prelude.{◌≡◌};
ghost use Rattle.error.specs.Refusals.{as_answer};
ghost use Rattle.rays.specs.Rays.{at_of, is_finite_ray_of, is_valid_ray_of, new_ray_of};

use error::NonSeqError;
pub use matrix::{Mat4, Row};
pub use vector::Vec3;

// A ray: where it starts, where it goes, its wavelength in nanometres and its power in watts.
#[repr(C)]
#[derive(Clone, Copy)]
pub struct Ray {
    pub origin: Vec3,
    pub direction: Vec3,
    pub wavelength_nm: f64,
    pub energy: f64,
}

impl Ray {
    // A crossing counts from beyond this distance in a shape's own coordinates.
    pub const MIN_LOCAL_DISTANCE: f64 = 1e-9;

    // The same in the world's.
    pub const MIN_WORLD_DISTANCE: f64 = 1e-8;

    // How far a new ray starts from the surface that it leaves.
    pub const OFFSET: f64 = 1e-6;

    // Refuses a part that is not finite (16).
    #[tactic(auto, unfolding(crate::specs::Rays::new_ray_of))]
    pub fn new(
        origin: Vec3,
        direction: Vec3,
        wavelength: f64,
        power: f64,
    ) -> Result<Ray, NonSeqError>
        ensures { as_answer result ≡ new_ray_of origin direction wavelength power }
    {
        let ray = Ray {
            origin,
            direction,
            wavelength_nm: wavelength,
            energy: power,
        };
        if ray.is_finite() {
            return Ok(ray);
        }
        Err(NonSeqError::RayNotFinite)
    }

    // Whether all eight parts are finite, by one test.
    #[tactic(auto, using(crate::proofs::Finite::eight_finite), unfolding(crate::specs::Rays::is_finite_ray_of))]
    pub fn is_finite(self) -> bool
        ensures { result ≡ is_finite_ray_of self }
    {
        let o = self.origin;
        let d = self.direction;
        let w = self.wavelength_nm;
        let e = self.energy;
        ((o.x - o.x) + (o.y - o.y) + (o.z - o.z))
            + (((d.x - d.x) + (d.y - d.y) + (d.z - d.z)) + ((w - w) + (e - e)))
            == 0.0
    }

    // Whether this is a ray that a caller may give: all parts finite, a power that is not below 0, and a
    // direction dotted with itself within 1e-9 of 1. Any other is refused by 10.
    #[tactic(auto, unfolding(crate::specs::Rays::is_valid_ray_of))]
    pub fn is_valid(self) -> bool
        ensures { result ≡ is_valid_ray_of self }
    {
        let direction = self.direction;
        if self.is_finite() {
            if self.energy >= 0.0 {
                return doubles::abs(direction.dot(direction) - 1.0) <= 1e-9;
            }
        }
        false
    }

    // The point at a distance: origin plus direction times distance.
    #[tactic(auto, unfolding(crate::specs::Rays::at_of))]
    pub fn at(self, t: f64) -> Vec3
        ensures { result ≡ at_of self t }
    {
        let origin = self.origin;
        let direction = self.direction;
        origin.plus(direction.scale(t))
    }
}
