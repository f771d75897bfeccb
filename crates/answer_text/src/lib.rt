// The answer of a tracing as text (document 01, `straymap`): ledger, tallies, detectors and pixels under a
// filter; and a refusal.
#![tactic(auto)]

mod detectors_text;
mod maps;
mod pixels;

ghost use Rattle.std.specs.Prelude.{◌≡◌};
ghost use Rattle.printing.specs.Printing.{out, put_all};
ghost use Rattle.answer_text.specs.Answer.{as_held, ledger_text, tallies_text, detectors_text, maps_text, answer_text, refusal_text};

use detectors_text::{Line, Pixels};
use filter::{Held, RayPathFilter};
pub use maps::few;
use report::{NonSeqTraceReport, Tallies};

fn put_ledger(buf: &mut [u8], at: usize, report: NonSeqTraceReport) -> usize
    ensures { out buf.new result ≡ put_all buf.old at (ledger_text report) }
{
    let l = report.ledger;
    let wholes = [
        u64::from(report.total_rays_traced),
        u64::from(report.total_interactions),
    ];
    let powers = [
        l.launched_flux_watts,
        l.detected_flux_watts,
        l.absorbed_flux_watts,
        l.escaped_flux_watts,
        l.lost_flux_watts,
    ];
    let p = printing::put_all(
        buf,
        at,
        b"rays interactions launched detected absorbed escaped lost\n",
    );
    printing::put_row(buf, p, &wholes, &powers)
}

fn put_tallies(buf: &mut [u8], at: usize, t: Tallies) -> usize
    ensures { out buf.new result ≡ put_all buf.old at (tallies_text t) }
{
    let counts = [
        u64::from(t.made),
        u64::from(t.dim),
        u64::from(t.spent),
        u64::from(t.caught),
        u64::from(t.gone),
        u64::from(t.surface),
        u64::from(t.weak),
    ];
    let p = printing::put_all(buf, at, b"made dim spent caught gone surface weak\n");
    printing::put_row(buf, p, &counts, &[])
}

// The refusal's number and place.
pub fn put_refusal(buf: &mut [u8], at: usize, number: u32, place: u32) -> usize
    ensures { out buf.new result ≡ put_all buf.old at (refusal_text number place) }
{
    let wholes = [u64::from(number), u64::from(place)];
    let p = printing::put_all(buf, at, b"refusal place\n");
    printing::put_row(buf, p, &wholes, &[])
}

fn put_detectors(buf: &mut [u8], at: usize, held: Held<'_, '_>, filter: RayPathFilter) -> usize
    ensures { out buf.new result ≡ put_all buf.old at
        (detectors_text filter (as_held held.entry)) }
{
    let p = printing::put_all(buf, at, b"detector hits signal stray flux\n");
    detectors_text::put_each::<Line>(buf, p, held, filter)
}

fn put_maps(buf: &mut [u8], at: usize, held: Held<'_, '_>, filter: RayPathFilter) -> usize
    ensures { out buf.new result ≡ put_all buf.old at
        (maps_text filter (as_held held.entry)) }
{
    let p = printing::put_all(buf, at, b"detector px py flux\n");
    detectors_text::put_each::<Pixels>(buf, p, held, filter)
}

// The whole answer.
pub fn put_answer(
    buf: &mut [u8],
    at: usize,
    report: NonSeqTraceReport,
    held: Held<'_, '_>,
    filter: RayPathFilter,
) -> usize
    ensures { out buf.new result ≡ put_all buf.old at
        (answer_text report filter (as_held held.entry)) }
{
    let tallies = report.tallies;
    let p = put_ledger(buf, at, report);
    let q = put_tallies(buf, p, tallies);
    let s = put_detectors(buf, q, held, filter);
    put_maps(buf, s, held, filter)
}
