// The nearest solid of a list along a ray.
ghost use Rattle.std.specs.Prelude.{◌≡◌};
ghost use Rattle.error.specs.Refusals.{as_checked};
ghost use Rattle.nearest.specs.Nearest.{distance_of, nearer_of, nearest_among};
ghost use Rattle.scene.specs.Solids.{objects_in};
ghost use Rattle.scene.specs.declared.closest.Candidate.{Candidate};
ghost use Rattle.scene.specs.Closest.{closest_object_of, intersect_closest_object_of, arrive_at_of, is_kept_of, candidate_distance, candidates_in};

use crate::object::Approach;
use crate::solids::Solids;
use crate::{MAX_SOLIDS, NonSeqHit};
use error::{NonSeqError, Refusal};
use rays::Ray;

// An approach, and the place of the solid.
#[derive(Clone, Copy)]
pub struct Candidate {
    pub place: u32,
    pub approach: Approach,
}

// Infinite for nothing.
fn distance(best: Option<Candidate>) -> f64
    ensures { result ≡ distance_of Candidate candidate_distance best }
{
    match best {
        Some(c) => c.approach.t,
        None => doubles::infinity(),
    }
}

impl Solids<'_> {
    // The hit of an approach to the solid at a place, if its normal can be made.
    #[tactic(auto, unfolding(crate::specs::Closest::arrive_at_of, crate::specs::Solids::holds, crate::specs::Solids::object_at_of))]
    fn arrive_at(self, place: u32, ray: Ray, approach: Approach) -> Option<NonSeqHit>
        ensures { result ≡ arrive_at_of (objects_in self.entry place) ray approach }
    {
        self.object_at(place)?.arrive(ray, approach)
    }

    // Whether an approach to solid i is kept: in a strict search only if its normal can be made.
    #[tactic(auto, unfolding(crate::specs::Closest::arrive_at_of, crate::specs::Solids::holds, crate::specs::Closest::is_kept_of, crate::specs::Solids::object_at_of))]
    fn is_kept(self, i: u32, ray: Ray, strict: bool, approach: Approach) -> bool
        ensures { result ≡ is_kept_of strict (arrive_at_of (objects_in self.entry i) ray approach) }
    {
        if strict {
            return self.arrive_at(i, ray, approach).is_some();
        }
        true
    }

    // The nearest approach so far, or that of solid i.
    #[tactic(auto, using(crate::proofs::Candidates::candidate_taken, crate::proofs::Candidates::candidate_dropped, crate::proofs::Candidates::candidate_far, crate::proofs::Candidates::candidate_missed))]
    fn nearer_candidate(
        self,
        i: u32,
        ray: Ray,
        strict: bool,
        best: Option<Candidate>,
    ) -> Option<Candidate>
        ensures { result ≡ nearer_of Candidate candidate_distance best (candidates_in strict (objects_in self.entry) ray i) }
    {
        if let Some(approach) = self.approach_at(i, ray) {
            if nearest::is_nearer(approach.t, distance(best)) {
                if self.is_kept(i, ray, strict, approach) {
                    return Some(Candidate { place: i, approach });
                }
            }
        }
        best
    }

    // The nearest approach of all solids.
    fn nearest_candidate(self, ray: Ray, strict: bool) -> Option<Candidate>
        ensures { result ≡ nearest_among Candidate candidate_distance (candidates_in strict (objects_in self.entry) ray) self.entry.count }
    {
        let mut best = None;
        for i in 0..self.count {
            best = self.nearer_candidate(i, ray, strict, best);
        }
        best
    }

    // With a normal for each approach that is nearer than those before it.
    #[tactic(auto, using(crate::proofs::Candidates::closest_strictly, crate::proofs::Candidates::closest_nothing))]
    fn closest_strictly(self, ray: Ray) -> Option<NonSeqHit>
        ensures { result ≡ closest_object_of (objects_in self.entry) self.entry.count ray }
    {
        let Candidate { place, approach } = self.nearest_candidate(ray, true)?;
        self.arrive_at(place, ray, approach)
    }

    // The nearest of the solids along any ray, passing over what is none: for callers that have checked them. Only
    // the nearest approach gets a normal; where that can't be made, the search is made again.
    pub fn closest_object(self, ray: Ray) -> Option<NonSeqHit>
        ensures { result ≡ closest_object_of (objects_in self.entry) self.entry.count ray }
    {
        let Candidate { place, approach } = self.nearest_candidate(ray, false)?;
        // not `or_else`: a closure that holds lent slices in a struct promises nothing
        match self.arrive_at(place, ray, approach) {
            Some(hit) => Some(hit),
            None => self.closest_strictly(ray),
        }
    }

    // The nearest solid. Lists that do not fit are refused (17), then more than 32 solids (3), then the ray (10).
    #[tactic(auto, unfolding(crate::specs::Closest::intersect_closest_object_of))]
    pub fn intersect_closest_object(self, ray: Ray) -> Result<Option<NonSeqHit>, Refusal>
        ensures { as_checked result ≡ intersect_closest_object_of self.entry.values.now self.entry.tags.now self.entry.count ray }
    {
        self.check()?;
        if self.count <= MAX_SOLIDS {
            if ray.is_valid() {
                return Ok(self.closest_object(ray));
            }
            return Err(Refusal {
                error: NonSeqError::InvalidRay,
                place: 0,
            });
        }
        Err(Refusal {
            error: NonSeqError::ListTooLong,
            place: 0,
        })
    }
}
