// The entries of `host_texts` for C and Rust hosts: each calls the function of its name, and promises what it does.
#![tactic(auto)]

ghost use Rattle.answer_text.specs.Answer.{held, refusal_text};
ghost use Rattle.host_texts.specs.Texts.{host_put_answer_of, put_whole_of, scene_from, scene_read, text_put};
ghost use Rattle.map_text.specs.StrayMap.{stray_map_text};
ghost use Rattle.printing.specs.Printing.{out};
ghost use Rattle.report.specs.Report.{energy_conservation_ratio_of};
ghost use Rattle.scene_text.specs.Scene.{read_scene_of, slices};
ghost use Rattle.std.specs.Prelude.{◌≡◌};

use detectors::Detectors;
use host_texts::{HostScene, HostText};
use report::{Ledger, NonSeqTraceReport};

// A scene text into eight slices, each of the text's numbers in their order; what has no place is counted and read
// past. 17 with the line's number leaves them as they were.
#[unsafe(no_mangle)]
pub extern "C" fn nonseq_read_scene(
    text: &[u8],
    run_values: &mut [f64],
    run_tags: &mut [u32],
    solid_values: &mut [f64],
    solid_tags: &mut [u32],
    detector_values: &mut [f64],
    detector_tags: &mut [u32],
    ray_values: &mut [f64],
    ray_tags: &mut [u32],
) -> HostScene
    ensures { scene_read result (slices run_values.new run_tags.new solid_values.new solid_tags.new detector_values.new detector_tags.new ray_values.new ray_tags.new)
        ≡ scene_from (read_scene_of text.now
        (slices run_values.old run_tags.old solid_values.old solid_tags.old detector_values.old detector_tags.old ray_values.old ray_tags.old)) }
{
    host_texts::nonseq_read_scene(
        text,
        run_values,
        run_tags,
        solid_values,
        solid_tags,
        detector_values,
        detector_tags,
        ray_values,
        ray_tags,
    )
}

// The answer of a tracing as text, whole, or nothing where it does not fit: its length, at most 131,072, is told
// either way. A filter over 4 (17), detectors (3, 5 to 8 and 18), slices that are not theirs or more than 4,096 pixels
// (9) are refused, and the buffer is left.
#[unsafe(no_mangle)]
pub extern "C" fn nonseq_put_answer(
    buf: &mut [u8],
    report: NonSeqTraceReport,
    detectors: Detectors,
    filter: u32,
    flux: &[f64],
    hit_values: &[f64],
    hit_tags: &[u32],
    used: usize,
) -> HostText
    ensures { text_put result buf.new ≡ host_put_answer_of buf.old report filter
        (held detectors flux.now hit_values.now hit_tags.now used) }
{
    host_texts::nonseq_put_answer(
        buf, report, detectors, filter, flux, hit_values, hit_tags, used,
    )
}

// A refusal as text, whole, or nothing where it does not fit. Answers its length.
#[unsafe(no_mangle)]
pub extern "C" fn nonseq_put_refusal(buf: &mut [u8], refusal: u32, place: u32) -> usize
    ensures { out buf.new result ≡ put_whole_of buf.old (refusal_text refusal place) }
{
    host_texts::nonseq_put_refusal(buf, refusal, place)
}

// The answer to a scene text, as straymap prints it, whole, or nothing where it does not fit. Answers its length, at
// most 131,072.
#[unsafe(no_mangle)]
pub extern "C" fn nonseq_stray_map(buf: &mut [u8], text: &[u8]) -> usize
    ensures { out buf.new result ≡ put_whole_of buf.old (stray_map_text text.now) }
{
    host_texts::nonseq_stray_map(buf, text)
}

// Detected, absorbed and escaped power over launched, without lost; 1 where none was launched.
#[unsafe(no_mangle)]
pub extern "C" fn nonseq_energy_conservation_ratio(ledger: Ledger) -> f64
    ensures { result ≡ energy_conservation_ratio_of ledger }
{
    host_texts::nonseq_energy_conservation_ratio(ledger)
}
