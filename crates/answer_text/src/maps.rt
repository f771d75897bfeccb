// The lines of one detector: its hits and flux under a filter, and its pixels.
ghost use Rattle.std.specs.Prelude.{◌≡◌, ◌≤◌};
ghost use Rattle.printing.specs.Printing.{out, put_all};
ghost use Rattle.answer_text.specs.Answer.{as_held, few_of, grid_at_of, shown_of, detector_text, detector_map_text};
ghost use Rattle.memory.specs.Memory.{text_pixels};

use crate::pixels;
use detector::DetectorNo;
use detectors::Detectors;
use filter::{Held, RayPathFilter, Tally};
use memory::TEXT_PIXELS;

// How many pixels a detector has, and how many columns.
#[derive(Clone, Copy)]
pub struct Grid {
    pub pixels: usize,
    pub columns: usize,
}

// As many pixels as there is room for.
#[tactic(auto, unfolding(crate::specs::Answer::few_of))]
pub fn few(n: usize) -> usize
    ensures { (result ≡ few_of n) × (result ≤ text_pixels) }
{
    if n <= TEXT_PIXELS {
        return n;
    }
    TEXT_PIXELS
}

#[tactic(auto, unfolding(crate::specs::Answer::grid_from, crate::specs::Answer::grid_at_of))]
fn grid_at(detectors: Detectors, d: u32) -> Grid
    ensures { (result ≡ grid_at_of detectors d) × (result.pixels ≤ text_pixels) }
{
    match detectors.at(DetectorNo(d)) {
        Some(p) => {
            let e = p.detector;
            Grid {
                pixels: few(e.pixels()),
                columns: e.res_x as usize,
            }
        }
        None => Grid {
            pixels: 0,
            columns: 0,
        },
    }
}

// Total and count of a detector's hits under a filter; zeros where it is refused.
#[tactic(auto, using(crate::proofs::Shown::total_shown, crate::proofs::Shown::count_shown))]
fn shown(held: Held<'_, '_>, d: u32, filter: RayPathFilter) -> Tally
    ensures { (result.total ≡ (shown_of (as_held held.entry) filter d).total)
        × (result.count ≡ (shown_of (as_held held.entry) filter d).count) }
{
    let g = grid_at(held.detectors, d);
    let n = g.pixels;
    let mut work = [0.0f64; TEXT_PIXELS];
    held.refilter(DetectorNo(d), filter, &mut work[..n])
        .unwrap_or(Tally {
            total: 0.0,
            count: 0,
        })
}

// A detector's line.
#[tactic(auto, unfolding(crate::specs::Answer::detector_text))]
pub(crate) fn put_detector(
    buf: &mut [u8],
    at: usize,
    held: Held<'_, '_>,
    d: u32,
    filter: RayPathFilter,
) -> usize
    ensures { out buf.new result ≡ put_all buf.old at
        (detector_text (as_held held.entry) filter d) }
{
    let a = shown(held, d, filter);
    let s = shown(held, d, RayPathFilter::SignalOnly);
    let t = shown(held, d, RayPathFilter::StrayLight);
    let wholes = [u64::from(d), a.count as u64, s.count as u64, t.count as u64];
    let powers = [a.total];
    printing::put_row(buf, at, &wholes, &powers)
}

// The lines of its pixels.
pub(crate) fn put_detector_map(
    buf: &mut [u8],
    at: usize,
    held: Held<'_, '_>,
    d: u32,
    filter: RayPathFilter,
) -> usize
    ensures { out buf.new result ≡ put_all buf.old at
        (detector_map_text (as_held held.entry) filter d) }
{
    let g = grid_at(held.detectors, d);
    let n = g.pixels;
    let w = g.columns;
    let mut work = [0.0f64; TEXT_PIXELS];
    // where this is refused, the map that is handed back is empty
    let _ = held.refilter(DetectorNo(d), filter, &mut work[..n]);
    let map = held.filtered_pixel_flux(DetectorNo(d), filter, &work[..n]);
    if w == 0 {
        return at;
    }
    pixels::put_pixels(buf, at, u64::from(d), w, map)
}
