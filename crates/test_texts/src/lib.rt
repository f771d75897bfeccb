// Lines of scripts on texts: scene texts read, answers written, and the ratio of a ledger.
#![tactic(auto)]

use given_rays::{RAY_DOUBLES, RAY_ROOM_DOUBLES, RAY_ROOM_WHOLES, RAY_WHOLES};
use host_texts::{HostScene, HostText};
use report::{Ledger, NonSeqTraceReport, Tallies};
use scene::{SOLID_DOUBLES, SOLID_WHOLES};
use test_words::words::{Fault, Ran};
use test_words::{digest, files, lists, words, world};

// The digest with one block's lists more, its doubles and its whole numbers.
fn with_lines(
    h: u64,
    values: &[f64],
    at: usize,
    doubles: usize,
    tags: &[u32],
    from: usize,
    wholes: usize,
) -> u64 {
    let r = digest::with_list(h, lists::part_from(values, at, doubles));
    digest::with_list(r, lists::part_from(tags, from, wholes))
}

// The digest of the run and of n solids.
fn with_solids(values: &[f64], tags: &[u32], n: usize) -> u64 {
    let h = with_lines(
        digest::START,
        values,
        world::RUN_VALUES,
        world::SOLID_VALUES,
        tags,
        world::RUN_TAGS,
        world::SOLID_TAGS,
    );
    let k = n.min(world::SOLID_ROOM);
    with_lines(
        h,
        values,
        world::SOLID_VALUES,
        k * SOLID_DOUBLES,
        tags,
        world::SOLID_TAGS,
        k * SOLID_WHOLES,
    )
}

// The digest of what was read, each list as long as its lines ask.
fn digest_of(values: &[f64], tags: &[u32], r: HostScene) -> u64 {
    let d = (r.detectors as usize).min(8);
    let n = (r.rays as usize).min(world::RAY_ROOM);
    let h = with_lines(
        with_solids(values, tags, r.solids as usize),
        values,
        world::DETECTOR_VALUES,
        d * world::DETECTOR_DOUBLES,
        tags,
        world::DETECTOR_TAGS,
        d * world::DETECTOR_WHOLES,
    );
    with_lines(
        h,
        values,
        world::RAY_VALUES,
        n * RAY_DOUBLES,
        tags,
        world::RAY_TAGS,
        n * RAY_WHOLES,
    )
}

// Where the four lists of doubles, of whole numbers, start.
const VALUES: [usize; 4] = [
    world::RUN_VALUES,
    world::SOLID_VALUES,
    world::DETECTOR_VALUES,
    world::RAY_VALUES,
];

const TAGS: [usize; 4] = [
    world::RUN_TAGS,
    world::SOLID_TAGS,
    world::DETECTOR_TAGS,
    world::RAY_TAGS,
];

// Four lists out of where they belong and back.
fn take_four<T: Copy + Default>(
    all: &[T],
    starts: [usize; 4],
    run: &mut [T],
    solids: &mut [T],
    detectors: &mut [T],
    rays: &mut [T],
) {
    lists::take_numbers(run, all, starts[0]);
    lists::take_numbers(solids, all, starts[1]);
    lists::take_numbers(detectors, all, starts[2]);
    lists::take_numbers(rays, all, starts[3]);
}

fn put_four<T: Copy>(
    all: &mut [T],
    starts: [usize; 4],
    run: &[T],
    solids: &[T],
    detectors: &[T],
    rays: &[T],
) {
    lists::put_numbers(all, starts[0], run);
    lists::put_numbers(all, starts[1], solids);
    lists::put_numbers(all, starts[2], detectors);
    lists::put_numbers(all, starts[3], rays);
}

// A scene text over what the lists hold.
fn read_into(text: &[u8], values: &mut [f64], tags: &mut [u32]) -> HostScene {
    let mut run_values = [0.0f64; world::SOLID_VALUES];
    let mut run_tags = [0u32; world::SOLID_TAGS];
    let mut solid_values = [0.0f64; world::SOLID_ROOM * SOLID_DOUBLES];
    let mut solid_tags = [0u32; world::SOLID_ROOM * SOLID_WHOLES];
    let mut detector_values = [0.0f64; 8 * world::DETECTOR_DOUBLES];
    let mut detector_tags = [0u32; 8 * world::DETECTOR_WHOLES];
    let mut ray_values = [0.0f64; RAY_ROOM_DOUBLES];
    let mut ray_tags = [0u32; RAY_ROOM_WHOLES];
    take_four(
        values,
        VALUES,
        &mut run_values,
        &mut solid_values,
        &mut detector_values,
        &mut ray_values,
    );
    take_four(
        tags,
        TAGS,
        &mut run_tags,
        &mut solid_tags,
        &mut detector_tags,
        &mut ray_tags,
    );
    let r = host_texts::nonseq_read_scene(
        text,
        &mut run_values,
        &mut run_tags,
        &mut solid_values,
        &mut solid_tags,
        &mut detector_values,
        &mut detector_tags,
        &mut ray_values,
        &mut ray_tags,
    );
    put_four(
        values,
        VALUES,
        &run_values,
        &solid_values,
        &detector_values,
        &ray_values,
    );
    put_four(
        tags,
        TAGS,
        &run_tags,
        &solid_tags,
        &detector_tags,
        &ray_tags,
    );
    r
}

// The digest of a refused text is that of nothing.
fn digest_told(r: HostScene, values: &[f64], tags: &[u32]) -> u64 {
    if r.refusal == 0 {
        return digest_of(values, tags, r);
    }
    digest::START
}

fn tell_scene(r: HostScene, digest: u64, numbers: &mut [u64]) {
    world::tell_refusal(numbers, r.refusal, r.place);
    world::tell(numbers, 2, r.solids as u64);
    world::tell(numbers, 3, r.detectors as u64);
    world::tell(numbers, 4, r.rays as u64);
    world::tell(numbers, 5, digest);
}

// The numbers that go with a text that was read.
fn put_counts(r: HostScene, numbers: &mut [u64]) -> Ran {
    if r.refusal == 0 {
        lists::clear_numbers(numbers, world::TOTALS, 16);
        lists::put_number(numbers, world::SOLIDS, r.solids as u64);
        lists::put_number(numbers, world::DETECTORS, r.detectors as u64);
    }
    Ok(())
}

pub fn read(text: &[u8], values: &mut [f64], tags: &mut [u32], numbers: &mut [u64]) -> Ran {
    let r = read_into(text, values, tags);
    tell_scene(r, digest_told(r, values, tags), numbers);
    put_counts(r, numbers)
}

// The length of a text and the digest of the buffer that it went to, from place i of the answer on; how much of it was
// written.
fn tell_text(numbers: &mut [u64], i: usize, length: usize, buf: &[u8]) -> Ran {
    world::tell(numbers, i, length as u64);
    world::tell(
        numbers,
        i.wrapping_add(1),
        digest::with_list(digest::START, buf),
    );
    lists::put_number(numbers, world::WRITTEN, 0);
    if length <= buf.len() {
        lists::put_number(numbers, world::WRITTEN, length as u64);
    }
    Ok(())
}

fn last_ledger(numbers: &[u64]) -> Ledger {
    Ledger {
        launched_flux_watts: lists::bits_at(numbers, world::REPORT),
        detected_flux_watts: lists::bits_at(numbers, world::REPORT + 1),
        absorbed_flux_watts: lists::bits_at(numbers, world::REPORT + 2),
        escaped_flux_watts: lists::bits_at(numbers, world::REPORT + 3),
        lost_flux_watts: lists::bits_at(numbers, world::REPORT + 4),
    }
}

fn last_report(numbers: &[u64]) -> NonSeqTraceReport {
    NonSeqTraceReport {
        ledger: last_ledger(numbers),
        total_rays_traced: lists::low_at(numbers, world::REPORT + 5),
        total_interactions: lists::low_at(numbers, world::REPORT + 6),
        tallies: Tallies {
            made: lists::low_at(numbers, world::REPORT + 7),
            dim: lists::low_at(numbers, world::REPORT + 8),
            spent: lists::low_at(numbers, world::REPORT + 9),
            caught: lists::low_at(numbers, world::REPORT + 10),
            gone: lists::low_at(numbers, world::REPORT + 11),
            surface: lists::low_at(numbers, world::REPORT + 12),
            weak: lists::low_at(numbers, world::REPORT + 13),
        },
    }
}

// The three calls that write a text, into a buffer of dots.
fn put_answer(
    values: &[f64],
    tags: &[u32],
    flux: &[f64],
    hit_values: &[f64],
    hit_tags: &[u32],
    numbers: &[u64],
    buf: &mut [u8],
) -> HostText {
    buf.fill(b'.');
    host_texts::nonseq_put_answer(
        buf,
        last_report(numbers),
        world::all_detectors(values, tags, numbers),
        world::given_low(numbers, 0),
        flux,
        hit_values,
        hit_tags,
        lists::number_at(numbers, world::USED) as usize,
    )
}

pub fn answer(
    values: &[f64],
    tags: &[u32],
    flux: &[f64],
    hit_values: &[f64],
    hit_tags: &[u32],
    numbers: &mut [u64],
    buf: &mut [u8],
) -> Ran {
    let r = put_answer(values, tags, flux, hit_values, hit_tags, numbers, buf);
    world::tell_refusal(numbers, r.refusal, r.place);
    tell_text(numbers, 2, r.length, buf)
}

pub fn refusal(numbers: &mut [u64], buf: &mut [u8]) -> Ran {
    buf.fill(b'.');
    let n = world::given_low(numbers, 0);
    let place = world::given_low(numbers, 1);
    let length = host_texts::nonseq_put_refusal(buf, n, place);
    tell_text(numbers, 0, length, buf)
}

pub fn map(text: &[u8], numbers: &mut [u64], buf: &mut [u8]) -> Ran {
    buf.fill(b'.');
    let length = host_texts::nonseq_stray_map(buf, text);
    tell_text(numbers, 0, length, buf)
}

// Whether what was written last is the file. A file that fills the room here is longer than all that is written.
pub fn written(rt: &HostRuntime, all: &[u8], buf: &[u8], numbers: &mut [u64]) -> Ran {
    let mut stored = [0u8; world::WRITTEN_ROOM + 1];
    let n = files::read(
        rt,
        words::word(words::asked(words::line_in(all, numbers)), 1),
        &mut stored,
    );
    let made = files::front(buf, lists::number_at(numbers, world::WRITTEN) as usize);
    world::tell(numbers, 0, u64::from(made == files::front(&stored, n)));
    if 0 < n {
        return Ok(());
    }
    Err(Fault::Missing)
}

pub fn ratio(numbers: &mut [u64]) -> Ran {
    let ledger = Ledger {
        launched_flux_watts: world::given_double(numbers, 0),
        detected_flux_watts: world::given_double(numbers, 1),
        absorbed_flux_watts: world::given_double(numbers, 2),
        escaped_flux_watts: world::given_double(numbers, 3),
        lost_flux_watts: world::given_double(numbers, 4),
    };
    world::tell_double(
        numbers,
        0,
        host_texts::nonseq_energy_conservation_ratio(ledger),
    );
    Ok(())
}
