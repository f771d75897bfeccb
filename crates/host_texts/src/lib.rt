// Scene texts and answers for hosts, and the ratio of a ledger. hosts/c/nonseq.h declares the calls for C.
#![tactic(auto)]

ghost use Rattle.std.specs.Prelude.{◌≡◌, ◌≤◌, length};
ghost use Rattle.error.specs.Refusals.{as_checked, number_of};
ghost use Rattle.memory.specs.Memory.{text_pixels};
ghost use Rattle.printing.specs.Printing.{out};
ghost use Rattle.report.specs.Report.{energy_conservation_ratio_of};
ghost use Rattle.answer_text.specs.Answer.{held, as_held, answer_text, refusal_text};
ghost use Rattle.scene_text.specs.Scene.{slices, read_scene_of};
ghost use Rattle.map_text.specs.StrayMap.{stray_map_text};
ghost use Rattle.host_texts.specs.Texts.{put_whole_of, is_held_of, check_held_of, text_put, put_checked_of, host_put_answer_of, scene_from, scene_read};

use detectors::Detectors;
use error::{NonSeqError, Refusal};
use filter::{Held, RayPathFilter};
use report::{Ledger, NonSeqTraceReport};

// How many lines of values the blocks have.
#[repr(C)]
#[derive(Clone, Copy)]
pub struct HostScene {
    pub refusal: u32,
    pub place: u32,
    pub solids: u32,
    pub detectors: u32,
    pub rays: u32,
}

// The length of a text: as long as it is written, or as long as the buffer would have to be; 0 where refused.
#[repr(C)]
#[derive(Clone, Copy)]
pub struct HostText {
    pub refusal: u32,
    pub place: u32,
    pub length: usize,
}

// A scene text into eight slices, each of the text's numbers in their order; what has no place is counted and read
// past. 17 with the line's number leaves them as they were.
pub fn nonseq_read_scene(
    text: &[u8],
    run_values: &mut [f64],
    run_tags: &mut [u32],
    solid_values: &mut [f64],
    solid_tags: &mut [u32],
    detector_values: &mut [f64],
    detector_tags: &mut [u32],
    ray_values: &mut [f64],
    ray_tags: &mut [u32],
) -> HostScene
    ensures { scene_read result (slices run_values.new run_tags.new solid_values.new solid_tags.new detector_values.new detector_tags.new ray_values.new ray_tags.new)
        ≡ scene_from (read_scene_of text.now
        (slices run_values.old run_tags.old solid_values.old solid_tags.old detector_values.old detector_tags.old ray_values.old ray_tags.old)) }
{
    match scene_text::read_scene(
        text,
        run_values,
        run_tags,
        solid_values,
        solid_tags,
        detector_values,
        detector_tags,
        ray_values,
        ray_tags,
    ) {
        Ok(c) => HostScene {
            refusal: 0,
            place: 0,
            solids: c.solids,
            detectors: c.detectors,
            rays: c.rays,
        },
        Err(Refusal { error, place }) => HostScene {
            refusal: error.number(),
            place,
            solids: 0,
            detectors: 0,
            rays: 0,
        },
    }
}

// A text from the start of a buffer on, or nothing where it does not fit. Answers its length.
#[tactic(auto, unfolding(crate::specs::Texts::put_whole_of))]
fn put_whole(buf: &mut [u8], t: &[u8]) -> usize
    ensures { out buf.new result ≡ put_whole_of buf.old t.now }
{
    if t.len() <= buf.len() {
        printing::put_all(buf, 0, t)
    } else {
        t.len()
    }
}

// Whether the slices are the flux map and the hit list of the detectors, and an answer has room for the pixels.
#[tactic(auto, unfolding(crate::specs::Texts::is_held_of))]
fn is_held(held: Held<'_, '_>) -> bool
    ensures { result ≡ is_held_of held.entry.detectors (length held.entry.flux.now) (length held.entry.hit_values.now) (length held.entry.hit_tags.now) held.entry.used }
{
    held.flux.len() <= memory::TEXT_PIXELS
        && held.flux.len() == held.detectors.all_pixels()
        && memory::is_hit_list(held.hit_values.len(), held.hit_tags.len(), held.used)
}

// 3, 5 to 8 and 18, then 9.
#[tactic(auto, unfolding(crate::specs::Texts::check_held_of))]
fn check_held(held: Held<'_, '_>) -> Result<(), Refusal>
    ensures { as_checked result ≡ check_held_of held.entry.detectors (length held.entry.flux.now) (length held.entry.hit_values.now) (length held.entry.hit_tags.now) held.entry.used }
{
    held.detectors.check()?;
    if is_held(held) {
        Ok(())
    } else {
        Err(Refusal {
            error: NonSeqError::InvalidSliceLength,
            place: 0,
        })
    }
}

// The answer, whole, or nothing where it does not fit. Answers its length.
fn put_answer(
    buf: &mut [u8],
    report: NonSeqTraceReport,
    held: Held<'_, '_>,
    filter: RayPathFilter,
) -> usize
    requires { length held.flux.now ≤ text_pixels }
    ensures { out buf.new result ≡ put_whole_of buf.old
        (answer_text report filter (as_held held.entry)) }
{
    let mut t = [0u8; map_text::MAX_ANSWER];
    let n = answer_text::put_answer(&mut t, 0, report, held, filter);
    put_whole(buf, fields::front(&t, n))
}

// What is told of a text that is not written.
fn refused(r: Refusal) -> HostText
    ensures { result ≡ record { refusal = number_of r.error; place = r.place; length = 0 } }
{
    HostText {
        refusal: r.error.number(),
        place: r.place,
        length: 0,
    }
}

// The same, unless the detectors or the slices are refused.
#[tactic(auto, using(crate::proofs::Whole::held_few), unfolding(crate::specs::Texts::put_checked_of))]
fn put_checked(
    buf: &mut [u8],
    report: NonSeqTraceReport,
    held: Held<'_, '_>,
    filter: RayPathFilter,
) -> HostText
    ensures { text_put result buf.new ≡ put_checked_of buf.old report filter
        (as_held held.entry) }
{
    match check_held(held) {
        Err(r) => refused(r),
        Ok(()) => HostText {
            refusal: 0,
            place: 0,
            length: put_answer(buf, report, held, filter),
        },
    }
}

// The answer of a tracing as text, whole, or nothing where it does not fit: its length, at most 131,072, is told
// either way. A filter over 4 (17), detectors (3, 5 to 8 and 18), slices that are not theirs or more than 4,096 pixels
// (9) are refused, and the buffer is left.
#[tactic(auto, unfolding(crate::specs::Texts::host_put_answer_of))]
pub fn nonseq_put_answer(
    buf: &mut [u8],
    report: NonSeqTraceReport,
    detectors: Detectors,
    filter: u32,
    flux: &[f64],
    hit_values: &[f64],
    hit_tags: &[u32],
    used: usize,
) -> HostText
    ensures { text_put result buf.new ≡ host_put_answer_of buf.old report filter
        (held detectors flux.now hit_values.now hit_tags.now used) }
{
    let Some(by) = RayPathFilter::numbered(filter) else {
        return refused(Refusal {
            error: NonSeqError::InvalidSceneText,
            place: 0,
        });
    };
    let lent = Held {
        detectors,
        flux,
        hit_values,
        hit_tags,
        used,
    };
    put_checked(buf, report, lent, by)
}

// A refusal as text, whole, or nothing where it does not fit. Answers its length.
pub fn nonseq_put_refusal(buf: &mut [u8], refusal: u32, place: u32) -> usize
    ensures { out buf.new result ≡ put_whole_of buf.old (refusal_text refusal place) }
{
    let mut t = [0u8; 64];
    let n = answer_text::put_refusal(&mut t, 0, refusal, place);
    put_whole(buf, fields::front(&t, n))
}

// The answer to a scene text, as straymap prints it, whole, or nothing where it does not fit. Answers its length, at
// most 131,072.
pub fn nonseq_stray_map(buf: &mut [u8], text: &[u8]) -> usize
    ensures { out buf.new result ≡ put_whole_of buf.old (stray_map_text text.now) }
{
    let mut t = [0u8; map_text::MAX_ANSWER];
    let n = map_text::put_stray_map(&mut t, 0, text);
    put_whole(buf, fields::front(&t, n))
}

// Detected, absorbed and escaped power over launched, without lost; 1 where none was launched.
pub fn nonseq_energy_conservation_ratio(ledger: Ledger) -> f64
    ensures { result ≡ energy_conservation_ratio_of ledger }
{
    ledger.energy_conservation_ratio()
}
