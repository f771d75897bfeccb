// The ledger: the powers of a tracing, in watts, added up in step order.
ghost use Rattle.std.specs.Prelude.{◌≡◌};
ghost use Rattle.step.specs.Rays.{as_meeting, as_end};
ghost use Rattle.report.specs.Report.{detect_of, absorb_of, escape_of, lose_of, absorb_unless_of, lose_unless_of, ledger_met_of, ledger_after_of, energy_conservation_ratio_of};

use step::{End, Meeting};

#[repr(C)]
#[derive(Clone, Copy)]
pub struct Ledger {
    pub launched_flux_watts: f64,
    pub detected_flux_watts: f64,
    pub absorbed_flux_watts: f64,
    pub escaped_flux_watts: f64,
    pub lost_flux_watts: f64,
}

impl Ledger {
    #[tactic(auto, unfolding(crate::specs::Report::detect_of))]
    fn detect(self, power: f64) -> Ledger
        ensures { result ≡ detect_of self power }
    {
        Ledger {
            detected_flux_watts: self.detected_flux_watts + power,
            ..self
        }
    }

    #[tactic(auto, unfolding(crate::specs::Report::absorb_of))]
    fn absorb(self, power: f64) -> Ledger
        ensures { result ≡ absorb_of self power }
    {
        Ledger {
            absorbed_flux_watts: self.absorbed_flux_watts + power,
            ..self
        }
    }

    #[tactic(auto, unfolding(crate::specs::Report::escape_of))]
    fn escape(self, power: f64) -> Ledger
        ensures { result ≡ escape_of self power }
    {
        Ledger {
            escaped_flux_watts: self.escaped_flux_watts + power,
            ..self
        }
    }

    #[tactic(auto, unfolding(crate::specs::Report::lose_of))]
    fn lose(self, power: f64) -> Ledger
        ensures { result ≡ lose_of self power }
    {
        Ledger {
            lost_flux_watts: self.lost_flux_watts + power,
            ..self
        }
    }

    // The power of a ray that is not made at a clear surface is absorbed.
    #[tactic(auto, unfolding(crate::specs::Report::absorb_unless_of))]
    fn absorb_unless(self, made: bool, power: f64) -> Ledger
        ensures { result ≡ absorb_unless_of made self power }
    {
        if made {
            return self;
        }
        self.absorb(power)
    }

    // The power of a mirrored ray that is not made is lost.
    #[tactic(auto, unfolding(crate::specs::Report::lose_unless_of))]
    fn lose_unless(self, made: bool, power: f64) -> Ledger
        ensures { result ≡ lose_unless_of made self power }
    {
        if made {
            return self;
        }
        self.lose(power)
    }

    // After what a solid made of a ray; the flags say which of its rays were made.
    #[tactic(auto, unfolding(crate::specs::Report::ledger_met_of))]
    fn met(self, meeting: Meeting, first: bool, second: bool) -> Ledger
        ensures { result ≡ ledger_met_of self (as_meeting meeting) first second }
    {
        match meeting {
            Meeting::Stopped(power) => self.absorb(power),
            Meeting::Mirrored { kept, reflected } => {
                self.absorb(kept).lose_unless(first, reflected)
            }
            Meeting::Parted {
                reflected,
                transmitted,
                ..
            } => {
                self.absorb_unless(first, reflected)
                    .absorb_unless(second, transmitted)
            }
        }
    }

    // After what became of a ray of some power.
    #[tactic(auto, unfolding(crate::specs::Report::ledger_after_of))]
    pub fn after(self, power: f64, end: End, first: bool, second: bool) -> Ledger
        ensures { result ≡ ledger_after_of self power (as_end end) first second }
    {
        match end {
            End::Dim | End::Spent => self.absorb(power),
            End::Gone => self.escape(power),
            End::Caught(hit) => self.detect(hit.flux_watts),
            End::Met(meeting) => self.met(meeting, first, second),
            End::Refused(_) => self,
        }
    }

    // Detected, absorbed and escaped power over launched, without lost; 1 where none was launched.
    #[tactic(auto, unfolding(crate::specs::Report::energy_conservation_ratio_of))]
    pub fn energy_conservation_ratio(self) -> f64
        ensures { result ≡ energy_conservation_ratio_of self }
    {
        if self.launched_flux_watts <= 0.0 {
            return 1.0;
        }
        (self.detected_flux_watts + self.absorbed_flux_watts + self.escaped_flux_watts)
            / self.launched_flux_watts
    }
}
