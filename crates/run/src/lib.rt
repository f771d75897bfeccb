// A run that can be taken up again (document 01, "How a ray lives"): steps until no ray is left, or as
// many as are asked for, each hit recorded as it comes.
#![tactic(auto)]

mod settling;
mod stack;

ghost use Rattle.std.specs.Prelude.{◌≡◌};
ghost use Rattle.memory.specs.Memory.{SameSlices, as_memory};
ghost use Rattle.step.specs.Rays.{lent_scene};
ghost use Rattle.given_rays.specs.Given.{rays_given};
ghost use Rattle.run.specs.Run.{as_advanced, advance_of};

use error::Refusal;
use faces::Faces;
use given_rays::GivenRays;
use memory::Memory;
use report::NonSeqTraceReport;
use scene::Solids;
pub use stack::{Stack, Taken};
use step::NonSeqTraceConfig;

// Where a run stands: the work stack, how many given rays are left, what it has added up.
#[derive(Clone, Copy)]
pub struct Progress {
    pub stack: Stack,
    pub left: u32,
    pub report: NonSeqTraceReport,
}

// The refusal or none, and what goes on. No Result: a refused run answers what its steps before that left.
#[derive(Clone, Copy)]
pub struct Advanced {
    pub check: Result<(), Refusal>,
    pub progress: Progress,
}

// At most so many steps, while a ray is left on the stack or in the batch. A refusal ends the run; the
// hits of the steps before it stay.
pub fn advance(
    config: NonSeqTraceConfig,
    solids: Solids<'_>,
    faces: Faces,
    given: GivenRays<'_>,
    progress: Progress,
    steps: u32,
    memory: &mut Memory<'_>,
) -> Advanced
    ensures same_slices { SameSlices memory.old memory.new }
    ensures value { as_advanced result (as_memory memory.new)
        ≡ advance_of (lent_scene solids.entry faces config) (rays_given given.entry) steps (as_memory memory.old) progress }
{
    let mut check = Ok(());
    let mut stack = progress.stack;
    let mut left = progress.left;
    let mut report = progress.report;
    let mut k = steps;
    while settling::goes_on(check, k, stack.len, left) {
        k -= 1;
        let newest = stack.rays[stack::top_at(stack.len)];
        let t = stack::take(newest, stack.len, left, given);
        let e = step::take_step(config, solids, faces, t.ray);
        let after = report.after(t.ray.ray.energy, e);
        left = t.left;
        let end = e.end;
        match settling::hit_in(end) {
            Some(h) => {
                let recorded = memory.record(h);
                report = settling::settled(recorded, report, after);
                check = settling::placed(recorded, left);
                stack = stack.popped();
            }
            None => {
                report = after;
                check = settling::refusal_in(end, left);
                if e.reflected.is_some() | e.transmitted.is_some() {
                    stack = stack.after(e);
                } else {
                    stack = stack.popped();
                }
            }
        }
    }
    Advanced {
        check,
        progress: Progress {
            stack,
            left,
            report,
        },
    }
}
