// The tallies: how many rays were made, and what became of how many.
ghost use Rattle.std.specs.Prelude.{◌≡◌};
ghost use Rattle.step.specs.Rays.{as_meeting, as_end};
ghost use Rattle.report.specs.Report.{more_if_of, add_dim_of, add_spent_of, add_caught_of, add_gone_of, add_surface_of, faint_of, tallies_met_of, tallies_after_of};

use step::{End, Meeting, more};

#[repr(C)]
#[derive(Clone, Copy)]
pub struct Tallies {
    pub made: u32,
    pub dim: u32,
    pub spent: u32,
    pub caught: u32,
    pub gone: u32,
    pub surface: u32,
    pub weak: u32,
}

#[tactic(auto, unfolding(crate::specs::Report::more_if_of))]
pub(crate) fn more_if(b: bool, n: u32) -> u32
    ensures { result ≡ more_if_of b n }
{
    if b {
        return more(n);
    }
    n
}

// Whether the threshold left the second ray of a clear surface unmade.
#[tactic(auto, unfolding(crate::specs::Report::faint_of))]
fn faint(total: bool, second: bool) -> bool
    ensures { result ≡ faint_of total second }
{
    !total && !second
}

impl Tallies {
    #[tactic(auto, unfolding(crate::specs::Report::add_dim_of))]
    fn add_dim(self) -> Tallies
        ensures { result ≡ add_dim_of self }
    {
        Tallies {
            dim: more(self.dim),
            ..self
        }
    }

    #[tactic(auto, unfolding(crate::specs::Report::add_spent_of))]
    fn add_spent(self) -> Tallies
        ensures { result ≡ add_spent_of self }
    {
        Tallies {
            spent: more(self.spent),
            ..self
        }
    }

    #[tactic(auto, unfolding(crate::specs::Report::add_caught_of))]
    fn add_caught(self) -> Tallies
        ensures { result ≡ add_caught_of self }
    {
        Tallies {
            caught: more(self.caught),
            ..self
        }
    }

    #[tactic(auto, unfolding(crate::specs::Report::add_gone_of))]
    fn add_gone(self) -> Tallies
        ensures { result ≡ add_gone_of self }
    {
        Tallies {
            gone: more(self.gone),
            ..self
        }
    }

    // A solid was nearest; the flags say which rays were made, and which the threshold left unmade.
    #[tactic(auto, unfolding(crate::specs::Report::add_surface_of))]
    fn add_surface(self, first: bool, second: bool, weak: bool, faint: bool) -> Tallies
        ensures { result ≡ add_surface_of self first second weak faint }
    {
        Tallies {
            made: more_if(second, more_if(first, self.made)),
            surface: more(self.surface),
            weak: more_if(faint, more_if(weak, self.weak)),
            ..self
        }
    }

    // After what a solid made of a ray; the flags say which of its rays were made.
    #[tactic(auto, unfolding(crate::specs::Report::tallies_met_of))]
    fn met(self, meeting: Meeting, first: bool, second: bool) -> Tallies
        ensures { result ≡ tallies_met_of self (as_meeting meeting) first second }
    {
        match meeting {
            Meeting::Stopped(_) => self.add_surface(first, second, false, false),
            Meeting::Mirrored { .. } => self.add_surface(first, second, !first, false),
            Meeting::Parted { total, .. } => self.add_surface(
                first,
                second,
                !first,
                faint(total, second),
            ),
        }
    }

    // After what became of a ray.
    #[tactic(auto, unfolding(crate::specs::Report::tallies_after_of))]
    pub fn after(self, end: End, first: bool, second: bool) -> Tallies
        ensures { result ≡ tallies_after_of self (as_end end) first second }
    {
        match end {
            End::Dim => self.add_dim(),
            End::Spent => self.add_spent(),
            End::Gone => self.add_gone(),
            End::Caught(_) => self.add_caught(),
            End::Met(meeting) => self.met(meeting, first, second),
            End::Refused(_) => self,
        }
    }
}
