// Where a ray meets one solid.
ghost use Rattle.std.specs.Prelude.{◌≡◌};
ghost use Rattle.scene.specs.Objects.{facing_of, reached_of, approach_of, turned_of, arrive_of, intersect_of};

use crate::{NonSeqHit, NonSeqObject};
use geometry::{Contact, LocalHit};
use rays::{Mat4, Ray, Vec3};

// Where a ray meets a solid, with the hit in the solid's own coordinates.
#[derive(Clone, Copy)]
pub struct Approach {
    pub t: f64,
    pub point: Vec3,
    pub local: LocalHit,
}

// The side of a surface that a ray comes from.
#[tactic(auto, unfolding(crate::specs::Objects::facing_of))]
fn facing(n: Vec3, entering: bool) -> Vec3
    ensures { result ≡ facing_of n entering }
{
    if entering {
        return n;
    }
    n.negate()
}

// A point and a hit in a solid's coordinates, brought into the world by the solid's matrix. The distance is
// along the world's ray, whatever the scale of the solid's coordinates.
#[tactic(auto, unfolding(crate::specs::Objects::reached_of))]
pub(crate) fn reached(matrix: Mat4, ray: Ray, point: Vec3, local: LocalHit) -> Option<Approach>
    ensures { result ≡ reached_of matrix ray point local }
{
    let met = matrix.transform_point(point);
    let t = met.minus(ray.origin).dot(ray.direction);
    if t <= Ray::MIN_WORLD_DISTANCE {
        return None;
    }
    Some(Approach {
        t,
        point: met,
        local,
    })
}

impl NonSeqObject {
    // Where the ray meets the solid, its normal not yet looked at.
    pub fn approach(self, ray: Ray) -> Option<Approach>
        ensures { result ≡ approach_of self ray }
    {
        let geometry = self.geometry;
        let transform = self.transform;
        if self.is_active {
            let Contact { point, hit } = geometry.meet(transform.inverse, ray)?;
            return reached(transform.matrix, ray, point, hit);
        }
        None
    }

    // The hit with an outward normal.
    #[tactic(auto, unfolding(crate::specs::Objects::turned_of))]
    fn turned(self, ray: Ray, a: Approach, n: Vec3) -> NonSeqHit
        ensures { result ≡ turned_of self ray a n }
    {
        let entering = ray.direction.dot(n) < 0.0;
        let normal = facing(n, entering);
        let point = a.point;
        let object_id = self.id;
        NonSeqHit {
            t: a.t,
            point,
            normal,
            geometric_normal: n,
            object_id,
            entering,
        }
    }

    // The hit, if its normal can be made.
    #[tactic(auto, unfolding(crate::specs::Objects::arrive_of, crate::specs::Objects::arrive_with))]
    pub fn arrive(self, ray: Ray, a: Approach) -> Option<NonSeqHit>
        ensures { result ≡ arrive_of self ray a }
    {
        let transform = self.transform;
        let local = a.local;
        let n = transform.transform_normal(local.normal)?;
        Some(self.turned(ray, a, n))
    }

    // Where a ray in the world meets the solid. An inactive solid, or a local ray or normal that can't
    // be made, is a miss.
    #[tactic(auto, unfolding(crate::specs::Objects::arrive_from, crate::specs::Objects::intersect_of))]
    pub fn intersect(self, ray: Ray) -> Option<NonSeqHit>
        ensures { result ≡ intersect_of self ray }
    {
        let approach = self.approach(ray)?;
        self.arrive(ray, approach)
    }
}
