// The ledger and the tallies of a tracing (document 01, "How a ray lives"), after trace.rs's report.
#![tactic(auto)]

mod ledger;
mod tallies;

ghost use Rattle.std.specs.Prelude.{◌≡◌};
ghost use Rattle.step.specs.Rays.{as_end, as_step};
ghost use Rattle.report.specs.Report.{is_interaction_of, report_after_of, counted_of, start_report_of};

pub use ledger::Ledger;
use step::{End, Step, more};
pub use tallies::Tallies;
use tallies::more_if;

// What a tracing adds up to.
#[repr(C)]
#[derive(Clone, Copy)]
pub struct NonSeqTraceReport {
    pub ledger: Ledger,
    pub total_rays_traced: u32,
    pub total_interactions: u32,
    pub tallies: Tallies,
}

// Whether what became of a ray is an interaction.
#[tactic(auto, unfolding(crate::specs::Report::is_interaction_of))]
fn is_interaction(end: End) -> bool
    ensures { result ≡ is_interaction_of (as_end end) }
{
    !matches!(end, End::Dim | End::Spent)
}

impl NonSeqTraceReport {
    // Before the first step.
    #[tactic(auto, unfolding(crate::specs::Report::start_report_of))]
    pub fn start(rays: u32, launched: f64) -> NonSeqTraceReport
        ensures { result ≡ start_report_of rays launched }
    {
        NonSeqTraceReport {
            ledger: Ledger {
                launched_flux_watts: launched,
                detected_flux_watts: 0.0,
                absorbed_flux_watts: 0.0,
                escaped_flux_watts: 0.0,
                lost_flux_watts: 0.0,
            },
            total_rays_traced: rays,
            total_interactions: 0,
            tallies: Tallies {
                made: 0,
                dim: 0,
                spent: 0,
                caught: 0,
                gone: 0,
                surface: 0,
                weak: 0,
            },
        }
    }

    // After a step; one that refuses itself adds its interaction alone.
    #[tactic(auto, unfolding(crate::specs::Report::report_after_of))]
    pub fn after(self, power: f64, step: Step) -> NonSeqTraceReport
        ensures { result ≡ report_after_of self power (as_step step) }
    {
        let ledger = self.ledger;
        let tallies = self.tallies;
        let end = step.end;
        let first = step.reflected.is_some();
        let second = step.transmitted.is_some();
        // the tallies before the ledger: it takes fewer instructions
        let counted = tallies.after(end, first, second);
        NonSeqTraceReport {
            ledger: ledger.after(power, end, first, second),
            total_rays_traced: self.total_rays_traced,
            total_interactions: more_if(is_interaction(end), self.total_interactions),
            tallies: counted,
        }
    }

    // After a step that was refused: as it was, but the interaction is counted.
    #[tactic(auto, unfolding(crate::specs::Report::counted_of))]
    pub fn counted(self) -> NonSeqTraceReport
        ensures { result ≡ counted_of self }
    {
        let ledger = self.ledger;
        let tallies = self.tallies;
        NonSeqTraceReport {
            ledger,
            total_rays_traced: self.total_rays_traced,
            total_interactions: more(self.total_interactions),
            tallies,
        }
    }
}
