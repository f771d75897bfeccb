// Tracing a batch of rays (document 01, module 8), after trace.rs: all checks, then the run.
#![tactic(auto)]

mod checks;

ghost use Rattle.std.specs.Prelude.{◌≡◌};
ghost use Rattle.memory.specs.Memory.{SameSlices, as_memory};
ghost use Rattle.given_rays.specs.Given.{rays_given};
ghost use Rattle.trace.specs.Trace.{as_batch, start_of, answer_of, refused_before_of, trace_rays_of, as_traced};

pub use checks::{check_batch, check_trace};
use error::Refusal;
use faces::Faces;
use given_rays::GivenRays;
use memory::Memory;
use report::NonSeqTraceReport;
use run::{Advanced, Progress, Stack};
use scene::Solids;
use step::NonSeqTraceConfig;

// More steps than any batch takes.
const ALL_STEPS: u32 = 4294967295;

// The refusal or none, and the ledger and tallies. No Result: a run that is refused answers what its steps before
// that made.
#[derive(Clone, Copy)]
pub struct Traced {
    pub check: Result<(), Refusal>,
    pub report: NonSeqTraceReport,
}

// Before the first step.
#[tactic(auto, unfolding(crate::specs::Trace::start_of))]
fn start(given: GivenRays<'_>) -> Progress
    ensures { result ≡ start_of (rays_given given.entry) given.entry.count }
{
    let launched = given.launched();
    Progress {
        stack: Stack::empty(),
        left: given.count,
        report: NonSeqTraceReport::start(given.count, launched),
    }
}

// What a run leaves, as the answer.
fn answer(r: Advanced) -> Traced
    ensures { result ≡ answer_of r }
{
    Traced {
        check: r.check,
        report: r.progress.report,
    }
}

// What is refused before the run: nothing has changed, and the report is all zeros.
fn refused_before(refusal: Refusal) -> Traced
    ensures { result ≡ refused_before_of refusal }
{
    Traced {
        check: Err(refusal),
        report: NonSeqTraceReport::start(0, 0.0),
    }
}

// Traces the given rays through the solids to the memory's detectors, rays last to first. What is refused before the
// run changes nothing (17, 1, 2, 3, 5 to 8 and 18, 9, 10, 11); what is refused in it (12 to 16) keeps the hits of the
// steps before.
pub fn trace_rays(
    config: NonSeqTraceConfig,
    solids: Solids<'_>,
    given: GivenRays<'_>,
    memory: &mut Memory<'_>,
) -> Traced
    ensures same_slices { SameSlices memory.old memory.new }
    ensures value { as_traced result (as_memory memory.new)
        ≡ trace_rays_of (as_batch config solids.entry given.entry) (as_memory memory.old) }
{
    let check = check_batch(config, solids, given, memory);
    if let Err(refusal) = check {
        return refused_before(refusal);
    }
    let faces = Faces::new(memory.detectors);
    let progress = start(given);
    let r = run::advance(config, solids, faces, given, progress, ALL_STEPS, memory);
    answer(r)
}
