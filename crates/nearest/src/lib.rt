// Which of several distances along a ray is the nearest: the rule that solids and detectors share
// (document 01, "How a ray lives").
#![tactic(auto)]

ghost use Rattle.std.specs.Prelude.{◌≡◌};
ghost use Rattle.nearest.specs.Nearest.{is_nearer_of};

use rays::Ray;

// Whether a distance counts and is below the nearest so far, which is infinite at first.
#[tactic(auto, unfolding(crate::specs::Nearest::is_nearer_of))]
pub fn is_nearer(t: f64, nearest: f64) -> bool
    ensures { result ≡ is_nearer_of t nearest }
{
    if t < nearest {
        return t > Ray::MIN_WORLD_DISTANCE;
    }
    false
}
