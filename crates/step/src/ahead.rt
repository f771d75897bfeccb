// What is first ahead of a ray.
ghost use Rattle.std.specs.Prelude.{◌≡◌};
ghost use Rattle.step.specs.Steps.{nearer_of, first_ahead_of, as_ahead};

use faces::Sight;
use scene::NonSeqHit;

// Three ways on, each with its own end in `interact`: an Option of the other two would be matched twice.
#[derive(Clone, Copy)]
pub enum Ahead {
    Detector(Sight),
    Solid(NonSeqHit),
    Nothing,
}

// A detector wins only if it is strictly nearer than the solid.
#[tactic(auto, unfolding(crate::specs::Steps::nearer_of))]
fn nearer(sight: Sight, hit: NonSeqHit) -> Ahead
    ensures { as_ahead result ≡ nearer_of sight hit }
{
    if sight.crossing.t < hit.t {
        return Ahead::Detector(sight);
    }
    Ahead::Solid(hit)
}

#[tactic(auto, unfolding(crate::specs::Steps::first_ahead_of))]
pub fn first_ahead(seen: Option<Sight>, met: Option<NonSeqHit>) -> Ahead
    ensures { as_ahead result ≡ first_ahead_of seen met }
{
    match (seen, met) {
        (Some(sight), Some(hit)) => nearer(sight, hit),
        (Some(sight), None) => Ahead::Detector(sight),
        (None, Some(hit)) => Ahead::Solid(hit),
        (None, None) => Ahead::Nothing,
    }
}
