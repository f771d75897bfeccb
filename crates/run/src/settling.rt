// What a step means for the memory and the report.
ghost use Rattle.std.specs.Prelude.{◌≡◌};
ghost use Rattle.error.specs.Refusals.{as_checked};
ghost use Rattle.step.specs.Rays.{as_end};
ghost use Rattle.run.specs.Run.{hit_in_of, refusal_in_of, goes_on_of, placed_of, settled_of};

use detector::DetectorHit;
use error::Refusal;
use report::NonSeqTraceReport;
use step::End;

// The hit that a step brings, if any.
#[tactic(auto, unfolding(crate::specs::Run::hit_in_of))]
pub(crate) fn hit_in(end: End) -> Option<DetectorHit>
    ensures { result ≡ hit_in_of (as_end end) }
{
    match end {
        End::Caught(h) => Some(h),
        End::Dim | End::Spent | End::Gone | End::Met(_) | End::Refused(_) => None,
    }
}

// A step's refusal (14 to 16), at the given ray's place.
#[tactic(auto, unfolding(crate::specs::Run::refusal_in_of))]
pub(crate) fn refusal_in(end: End, place: u32) -> Result<(), Refusal>
    ensures { as_checked result ≡ refusal_in_of (as_end end) place }
{
    match end {
        End::Refused(error) => Err(Refusal { error, place }),
        End::Dim | End::Spent | End::Gone | End::Caught(_) | End::Met(_) => Ok(()),
    }
}

// A recording's refusal, at the given ray's place.
pub(crate) fn placed(check: Result<(), Refusal>, place: u32) -> Result<(), Refusal>
    ensures { result ≡ placed_of check place }
{
    check.map_err(|r| Refusal { place, ..r })
}

// The report after a recording; a refused one leaves it as it was found, but the interaction is counted.
pub(crate) fn settled(
    check: Result<(), Refusal>,
    found: NonSeqTraceReport,
    after: NonSeqTraceReport,
) -> NonSeqTraceReport
    ensures { result ≡ settled_of check found after }
{
    match check {
        Ok(()) => after,
        Err(_) => found.counted(),
    }
}

// Whether a run goes on: not refused, steps left to take, a ray left.
#[tactic(auto, unfolding(crate::specs::Run::goes_on_of))]
pub(crate) fn goes_on(check: Result<(), Refusal>, steps: u32, len: usize, left: u32) -> bool
    ensures { result ≡ goes_on_of check steps len left }
{
    check.is_ok() && 0 < steps && (0 < len || 0 < left)
}
