// The tracing of a scene's tables, and its answer.
ghost use Rattle.std.specs.Prelude.{◌≡◌};
ghost use Rattle.memory.specs.Memory.{as_memory};
ghost use Rattle.trace.specs.Trace.{as_batch, trace_rays_of};
ghost use Rattle.printing.specs.Printing.{out, put_all};
ghost use Rattle.map_text.specs.Tables.{tables, traced_text, map_text};

use crate::parts;
use error::Refusal;
use filter::{Held, RayPathFilter};
use given_rays::{GivenRays, RAY_DOUBLES, RAY_ROOM, RAY_WHOLES};
use memory::{Memory, TEXT_PIXELS};
use scene::{SOLID_DOUBLES, SOLID_WHOLES, Solids};
use step::NonSeqTraceConfig;

const HIT_ROOM_DOUBLES: usize = memory::TEXT_HITS * memory::HIT_DOUBLES;

const HIT_ROOM_WHOLES: usize = memory::TEXT_HITS * memory::HIT_WHOLES;

// A batch traced into a memory without hits, and the answer or the refusal written.
#[tactic(auto, using(crate::proofs::Outcomes::refused_text, crate::proofs::Outcomes::done_text))]
fn put_traced(
    buf: &mut [u8],
    at: usize,
    config: NonSeqTraceConfig,
    solids: Solids<'_>,
    given: GivenRays<'_>,
    filter: RayPathFilter,
    mut memory: Memory<'_>,
) -> usize
    ensures { out buf.new result ≡ put_all buf.old at
        (traced_text filter (trace_rays_of (as_batch config solids.entry given.entry) (as_memory memory.entry))) }
{
    let r = trace::trace_rays(config, solids, given, &mut memory);
    match r.check {
        Err(Refusal { error, place }) => answer_text::put_refusal(buf, at, error.number(), place),
        Ok(()) => {
            let Memory {
                detectors,
                flux,
                hits: _,
                hit_values,
                hit_tags,
                used,
            } = memory;
            let held = Held {
                detectors,
                flux,
                hit_values,
                hit_tags,
                used,
            };
            answer_text::put_answer(buf, at, r.report, held, filter)
        }
    }
}

// The answer to a scene's tables, with a memory of its own. A list beyond its limit is cut one place past it
// and refused by 3.
pub fn put_map(
    buf: &mut [u8],
    at: usize,
    run_values: &[f64],
    run_tags: &[u32],
    solids: Solids<'_>,
    detector_values: &[f64],
    detector_tags: &[u32],
    detectors: u32,
    given: GivenRays<'_>,
) -> usize
    ensures { out buf.new result ≡ put_all buf.old at
        (map_text (tables run_values.now run_tags.now solids.entry.values.now solids.entry.tags.now solids.entry.count detector_values.now detector_tags.now detectors given.entry.values.now given.entry.tags.now given.entry.count)) }
{
    let ds = parts::detectors(detector_values, detector_tags, detectors);
    let n = parts::at_most(parts::SOLID_ROOM, solids.count);
    let k = parts::at_most(RAY_ROOM, given.count);
    let p = answer_text::few(ds.all_pixels());
    let mut flux = [0.0f64; TEXT_PIXELS];
    let mut hits = [0u32; TEXT_PIXELS];
    let mut hit_values = [0.0f64; HIT_ROOM_DOUBLES];
    let mut hit_tags = [0u32; HIT_ROOM_WHOLES];
    let memory = Memory {
        detectors: ds,
        flux: &mut flux[..p],
        hits: &mut hits[..p],
        hit_values: &mut hit_values,
        hit_tags: &mut hit_tags,
        used: 0,
    };
    put_traced(
        buf,
        at,
        parts::config(run_values, run_tags),
        Solids {
            values: fields::front(solids.values, n as usize * SOLID_DOUBLES),
            tags: fields::front(solids.tags, n as usize * SOLID_WHOLES),
            count: n,
        },
        GivenRays {
            values: fields::front(given.values, k as usize * RAY_DOUBLES),
            tags: fields::front(given.tags, k as usize * RAY_WHOLES),
            count: k,
        },
        parts::meant(parts::whole(run_tags, 1)),
        memory,
    )
}
