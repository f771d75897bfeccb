// A ray at a mirror.
ghost use Rattle.std.specs.Prelude.{◌≡◌};
ghost use Rattle.error.specs.Refusals.{as_answer};
ghost use Rattle.step.specs.Rays.{as_meeting, as_step};
ghost use Rattle.step.specs.Steps.{mirror_from_of, mirror_of};

use crate::{ActiveRay, End, Meeting, Step};
use error::NonSeqError;
use rays::Ray;
use scene::NonSeqHit;

// The ray is on its way again, or it could not be made.
#[tactic(auto, unfolding(crate::specs::Steps::mirror_from_of))]
fn mirror_from(a: ActiveRay, meeting: Meeting, made: Result<Ray, NonSeqError>) -> Step
    ensures { as_step result ≡ mirror_from_of a (as_meeting meeting) (as_answer made) }
{
    match made {
        Ok(ray) => Step {
            end: End::Met(meeting),
            reflected: Some(a.reflected(false, ray)),
            transmitted: None,
        },
        Err(error) => Step::ends(End::Refused(error)),
    }
}

// Only a ray above the threshold is made.
#[tactic(auto, unfolding(crate::specs::Steps::mirror_of))]
pub(crate) fn mirror(threshold: f64, a: ActiveRay, hit: NonSeqHit, reflectance: f64) -> Step
    ensures { as_step result ≡ mirror_of threshold a hit reflectance }
{
    let ray = a.ray;
    let power = surface::mirrored_power(ray.energy, reflectance);
    let meeting = Meeting::Mirrored {
        kept: ray.energy - power,
        reflected: power,
    };
    if power > threshold {
        return mirror_from(a, meeting, surface::mirrored(ray, hit, power));
    }
    Step::ends(End::Met(meeting))
}
