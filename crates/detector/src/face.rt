// A detector's face, and where a ray crosses it.
ghost use Rattle.std.specs.Prelude.{◌≡◌};
ghost use Rattle.error.specs.Refusals.{as_checked};
ghost use Rattle.detector.specs.Faces.{orthogonal_of, face_of, across_of, face_intersect_ray_of, intersect_ray_of};

use crate::Detector2D;
use error::{NonSeqError, Refusal};
use rays::{Ray, Vec3};

// The axes of a detector and its half sizes, worked out once a call.
#[derive(Clone, Copy)]
pub struct Face {
    pub center: Vec3,
    pub normal: Vec3,
    pub up: Vec3,
    pub right: Vec3,
    pub half_width: f64,
    pub half_height: f64,
}

// Where a ray crosses a face: the distance, and the place to the right of the centre and above it.
#[derive(Clone, Copy)]
pub struct Crossing {
    pub t: f64,
    pub local_x: f64,
    pub local_y: f64,
}

// The unit vector up without its part along the unit vector n, made a unit vector again.
#[tactic(auto, unfolding(crate::specs::Faces::orthogonal_of))]
fn orthogonal(n: Vec3, up: Vec3) -> Vec3
    ensures { result ≡ orthogonal_of n up }
{
    let u = up.normalize();
    u.minus(n.scale(n.dot(u))).normalize()
}

impl Face {
    // What a ray that meets the plane at a distance crosses of the face. Exactly half a size is inside.
    #[tactic(auto, unfolding(crate::specs::Faces::across_of))]
    fn across(self, ray: Ray, t: f64) -> Option<Crossing>
        ensures { result ≡ across_of self ray t }
    {
        let offset = ray.at(t).minus(self.center);
        let local_x = offset.dot(self.right);
        let local_y = offset.dot(self.up);
        if doubles::is_within(local_x, self.half_width)
            && doubles::is_within(local_y, self.half_height)
        {
            return Some(Crossing {
                t,
                local_x,
                local_y,
            });
        }
        None
    }

    // Where any ray crosses the face, from either side.
    #[tactic(auto, unfolding(crate::specs::Faces::face_intersect_ray_of))]
    pub fn intersect_ray(self, ray: Ray) -> Option<Crossing>
        ensures { result ≡ face_intersect_ray_of self ray }
    {
        let denom = ray.direction.dot(self.normal);
        if doubles::is_under(denom, 1e-12) {
            return None;
        }
        let t = self.center.minus(ray.origin).dot(self.normal) / denom;
        if t <= Ray::MIN_LOCAL_DISTANCE {
            return None;
        }
        self.across(ray, t)
    }
}

impl Detector2D {
    #[tactic(auto, unfolding(crate::specs::Faces::face_of))]
    pub fn face(self) -> Face
        ensures { result ≡ face_of self }
    {
        let normal = self.normal.normalize();
        let up = orthogonal(normal, self.up);
        Face {
            center: self.center,
            normal,
            up,
            right: up.cross(normal).normalize(),
            half_width: self.width_mm * 0.5,
            half_height: self.height_mm * 0.5,
        }
    }

    // Where a ray crosses the detector. The detector is refused by 5 to 8 and 18, then the ray by 10.
    #[tactic(auto, unfolding(crate::specs::Faces::intersect_ray_of))]
    pub fn intersect_ray(self, ray: Ray) -> Result<Option<Crossing>, Refusal>
        ensures { as_checked result ≡ intersect_ray_of self ray }
    {
        self.check(0)?;
        if !ray.is_valid() {
            return Err(Refusal {
                error: NonSeqError::InvalidRay,
                place: 0,
            });
        }
        Ok(self.face().intersect_ray(ray))
    }
}
