// The rules that a host gives, and a tracing's answer to it.
ghost use Rattle.std.specs.Prelude.{◌≡◌};
ghost use Rattle.host_tracing.specs.Tracing.{trace_config_of, told_of, no_medium_of};

use detectors::Detectors;
use error::NonSeqError;
use material::OpticalMedium;
use report::NonSeqTraceReport;
use step::NonSeqTraceConfig;
use trace::Traced;

// The rules of a tracing; the ambient medium by document 01's number, with its coefficients from a on.
#[repr(C)]
#[derive(Clone, Copy)]
pub struct HostConfig {
    pub min_power_threshold: f64,
    pub max_bounces: u32,
    pub ambient: u32,
    pub a: f64,
    pub b: f64,
    pub c: f64,
    pub d: f64,
    pub e: f64,
    pub f: f64,
}

// Refusal 0 means that none was given.
#[repr(C)]
#[derive(Clone, Copy)]
pub struct HostTraced {
    pub refusal: u32,
    pub place: u32,
    pub used: usize,
    pub report: NonSeqTraceReport,
    pub detectors: Detectors,
}

#[tactic(auto, unfolding(crate::specs::Tracing::trace_config_of))]
pub fn trace_config(g: HostConfig, medium: OpticalMedium) -> NonSeqTraceConfig
    ensures { result ≡ trace_config_of g medium }
{
    NonSeqTraceConfig {
        max_bounces: g.max_bounces,
        min_power_threshold: g.min_power_threshold,
        ambient_medium: medium,
    }
}

#[tactic(auto, unfolding(crate::specs::Tracing::told_of))]
pub fn told(r: Traced, detectors: Detectors, used: usize) -> HostTraced
    ensures { result ≡ told_of r detectors used }
{
    let c = host_numbers::checked(r.check);
    HostTraced {
        refusal: c.refusal,
        place: c.place,
        used,
        report: r.report,
        detectors,
    }
}

// The refusal of an ambient medium that is none (17).
#[tactic(auto, unfolding(crate::specs::Tracing::no_medium_of))]
pub fn no_medium(detectors: Detectors, used: usize) -> HostTraced
    ensures { result ≡ no_medium_of detectors used }
{
    HostTraced {
        refusal: NonSeqError::InvalidSceneText.number(),
        place: 0,
        used,
        report: NonSeqTraceReport::start(0, 0.0),
        detectors,
    }
}
