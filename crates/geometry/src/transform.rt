// A shape's place in the world: its matrix and the inverse of it, both as given.
ghost use Rattle.std.specs.Prelude.{◌≡◌};
ghost use Rattle.rays.specs.Matrices.{transform_point_of};
ghost use Rattle.geometry.specs.Transforms.{unit_of, inverse_transform_ray_of, world_normal_of};
ghost use Rattle.geometry.specs.Contacts.{ray_from_of};

use rays::{Mat4, Ray, Vec3};

#[derive(Clone, Copy)]
pub struct Transform3D {
    pub matrix: Mat4,
    pub inverse: Mat4,
}

// The unit vector along v; nothing for a length at most 1e-15 or not finite.
#[tactic(auto, unfolding(crate::specs::Transforms::unit_of))]
fn unit(v: Vec3) -> Option<Vec3>
    ensures { result ≡ unit_of v }
{
    let length = v.norm();
    if length <= Vec3::MIN_LENGTH {
        return None;
    }
    if doubles::is_finite(length) {
        return Some(v.divide(length));
    }
    None
}

// The ray from o along d, made a unit vector, with the wavelength and the power of another; nothing if a part
// is not finite. A unit vector's parts are.
#[tactic(auto, unfolding(crate::specs::Contacts::ray_from_of, crate::specs::Contacts::ray_by))]
pub(crate) fn ray_from(o: Vec3, d: Vec3, ray: Ray) -> Option<Ray>
    ensures { result ≡ ray_from_of o d ray }
{
    let u = unit(d)?;
    if o.is_finite_with(ray.wavelength_nm, ray.energy) {
        return Some(Ray {
            origin: o,
            direction: u,
            wavelength_nm: ray.wavelength_nm,
            energy: ray.energy,
        });
    }
    None
}

impl Transform3D {
    // The ray in the shape's coordinates, with a unit direction there.
    #[tactic(auto, using(crate::proofs::Local::along_is))]
    pub fn inverse_transform_ray(self, ray: Ray) -> Option<Ray>
        ensures { result ≡ inverse_transform_ray_of self ray }
    {
        let w = self.inverse;
        ray_from(
            w.transform_point(ray.origin),
            w.transform_direction(ray.direction),
            ray,
        )
    }

    // The unit normal in the world.
    #[tactic(auto, unfolding(crate::specs::Transforms::world_normal_of))]
    pub fn transform_normal(self, normal: Vec3) -> Option<Vec3>
        ensures { result ≡ world_normal_of self normal }
    {
        unit(self.inverse.transform_normal(normal))
    }

    pub fn transform_point(self, point: Vec3) -> Vec3
        ensures { result ≡ transform_point_of self.matrix point }
    {
        self.matrix.transform_point(point)
    }
}
