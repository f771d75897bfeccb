// The checks before a run, in document 01's order.
ghost use Rattle.std.specs.Prelude.{◌≡◌, length};
ghost use Rattle.error.specs.Refusals.{as_checked};
ghost use Rattle.memory.specs.Memory.{as_memory};
ghost use Rattle.trace.specs.Trace.{as_batch, check_flat_of, check_config_of, check_counts_of, check_rules_of, check_scene_of, check_lengths_of, check_trace_of, check_batch};

use detectors::Detectors;
use error::{NonSeqError, Refusal};
use given_rays::{GivenRays, MAX_RAYS};
use memory::Memory;
use scene::{MAX_SOLIDS, Solids};
use step::NonSeqTraceConfig;

// Lists of solids or rays that do not fit (17).
#[tactic(auto, unfolding(crate::specs::Trace::check_flat_of))]
fn check_flat(
    config: NonSeqTraceConfig,
    solids: Solids<'_>,
    given: GivenRays<'_>,
) -> Result<(), Refusal>
    ensures { as_checked result ≡ check_flat_of (as_batch config solids.entry given.entry) }
{
    solids.check()?;
    given.check_lists()
}

// The largest bounce limit (else 2).
const MAX_BOUNCES: u32 = 16;

// The threshold (1), then the bounce limit (2).
#[tactic(auto, unfolding(crate::specs::Trace::check_config_of))]
fn check_config(config: NonSeqTraceConfig) -> Result<(), Refusal>
    ensures { as_checked result ≡ check_config_of config }
{
    let threshold = config.min_power_threshold;
    if doubles::is_finite(threshold) && threshold >= 0.0 {
        if config.max_bounces <= MAX_BOUNCES {
            return Ok(());
        }
        return Err(Refusal {
            error: NonSeqError::BounceLimitTooLarge,
            place: 0,
        });
    }
    Err(Refusal {
        error: NonSeqError::InvalidThreshold,
        place: 0,
    })
}

// At most 32 solids, 4,096 rays and 8 detectors (3).
#[tactic(auto, unfolding(crate::specs::Trace::check_counts_of))]
fn check_counts(count: u32, given: u32, detectors: u32) -> Result<(), Refusal>
    ensures { as_checked result ≡ check_counts_of count given detectors }
{
    if count <= MAX_SOLIDS && given <= MAX_RAYS {
        return Detectors::check_count(detectors);
    }
    Err(Refusal {
        error: NonSeqError::ListTooLong,
        place: 0,
    })
}

#[tactic(auto, unfolding(crate::specs::Trace::check_rules_of))]
fn check_rules(
    config: NonSeqTraceConfig,
    count: u32,
    given: u32,
    detectors: u32,
) -> Result<(), Refusal>
    ensures { as_checked result ≡ check_rules_of config count given detectors }
{
    check_config(config)?;
    check_counts(count, given, detectors)
}

// What comes before the memory's slices: the lists (17), the rules (1, 2), the numbers (3), each detector (5 to 8
// and 18).
#[tactic(auto, unfolding(crate::specs::Trace::check_scene_of))]
fn check_scene(
    config: NonSeqTraceConfig,
    solids: Solids<'_>,
    given: GivenRays<'_>,
    detectors: Detectors,
) -> Result<(), Refusal>
    ensures { as_checked result ≡ check_scene_of (as_batch config solids.entry given.entry) detectors }
{
    check_flat(config, solids, given)?;
    check_rules(config, solids.count, given.count, detectors.count)?;
    detectors.check_each()
}

// The memory's slices (9).
#[tactic(auto, unfolding(crate::specs::Trace::check_lengths_of))]
fn check_lengths(
    detectors: Detectors,
    flux: usize,
    hits: usize,
    hit_values: usize,
    hit_tags: usize,
    used: usize,
) -> Result<(), Refusal>
    ensures { as_checked result ≡ check_lengths_of detectors flux hits hit_values hit_tags used }
{
    if memory::are_lengths(detectors, flux, hits, hit_values, hit_tags, used) {
        return Ok(());
    }
    Err(Refusal {
        error: NonSeqError::InvalidSliceLength,
        place: 0,
    })
}

// All checks of a tracing; flux, hits, hit_values and hit_tags are the lengths of the memory's slices.
#[tactic(auto, unfolding(crate::specs::Trace::check_trace_of, crate::specs::Trace::checks_with))]
pub fn check_trace(
    config: NonSeqTraceConfig,
    solids: Solids<'_>,
    given: GivenRays<'_>,
    detectors: Detectors,
    flux: usize,
    hits: usize,
    hit_values: usize,
    hit_tags: usize,
    used: usize,
) -> Result<(), Refusal>
    ensures { as_checked result ≡ check_trace_of (as_batch config solids.entry given.entry) detectors flux hits hit_values hit_tags used }
{
    check_scene(config, solids, given, detectors)?;
    check_lengths(detectors, flux, hits, hit_values, hit_tags, used)?;
    given.check(solids.count)
}

// The same of a memory that is lent.
#[tactic(auto, unfolding(crate::specs::Trace::check_batch))]
pub fn check_batch(
    config: NonSeqTraceConfig,
    solids: Solids<'_>,
    given: GivenRays<'_>,
    memory: &Memory<'_>,
) -> Result<(), Refusal>
    ensures { as_checked result ≡ check_batch (as_batch config solids.entry given.entry) (as_memory memory.now) }
{
    check_trace(
        config,
        solids,
        given,
        memory.detectors,
        memory.flux.len(),
        memory.hits.len(),
        memory.hit_values.len(),
        memory.hit_tags.len(),
        memory.used,
    )
}
