// Calls that write the memory: a hit recorded, a batch traced; and a work map refilled.
use detector::{DetectorHit, DetectorNo};
use given_rays::{RAY_DOUBLES, RAY_WHOLES};
use host_detectors::HostFiltered;
use host_tracing::HostConfig;
use report::NonSeqTraceReport;
use scene::{SOLID_DOUBLES, SOLID_WHOLES};
use test_words::words::{Fault, Ran, done_if};
use test_words::{digest, lists, world};

fn used(numbers: &[u64]) -> usize {
    lists::number_at(numbers, world::USED) as usize
}

fn given_hit(numbers: &[u64]) -> DetectorHit {
    DetectorHit {
        local_x: world::given_double(numbers, 0),
        local_y: world::given_double(numbers, 1),
        flux_watts: world::given_double(numbers, 2),
        wavelength_nm: world::given_double(numbers, 3),
        detector: DetectorNo(world::given_low(numbers, 4)),
        bounce_count: world::given_low(numbers, 5),
        reflection_count: world::given_low(numbers, 6),
        tir_count: world::given_low(numbers, 7),
    }
}

pub fn record(
    values: &[f64],
    tags: &[u32],
    flux: &mut [f64],
    hits: &mut [u32],
    hit_values: &mut [f64],
    hit_tags: &mut [u32],
    numbers: &mut [u64],
) -> Ran {
    let r = host_detectors::nonseq_record_hit_classified(
        world::all_detectors(values, tags, numbers),
        flux,
        hits,
        hit_values,
        hit_tags,
        used(numbers),
        given_hit(numbers),
    );
    let after = r.detectors;
    world::put_records(numbers, after, r.used);
    world::tell_refusal(numbers, r.refusal, r.place);
    world::tell(numbers, 2, r.used as u64);
    Ok(())
}

fn tell_filtered(numbers: &mut [u64], r: HostFiltered, work: &[f64]) -> Ran {
    world::tell_refusal(numbers, r.refusal, r.place);
    world::tell_double(numbers, 2, r.total_flux_watts);
    world::tell(numbers, 3, r.hit_count as u64);
    world::tell(numbers, 4, digest::with_list(digest::START, work));
    Ok(())
}

fn refiltered(
    values: &[f64],
    tags: &[u32],
    flux: &[f64],
    work: &mut [f64],
    hit_values: &[f64],
    hit_tags: &[u32],
    numbers: &mut [u64],
) -> Ran {
    let ds = world::all_detectors(values, tags, numbers);
    let asked = world::given_low(numbers, 0);
    let filter = world::given_low(numbers, 1);
    let n = used(numbers);
    let r = host_detectors::nonseq_refilter(ds, asked, filter, flux, work, hit_values, hit_tags, n);
    tell_filtered(numbers, r, work)
}

pub fn refilter(
    values: &[f64],
    tags: &[u32],
    flux: &[f64],
    hit_values: &[f64],
    hit_tags: &[u32],
    numbers: &mut [u64],
) -> Ran {
    let mut work = [0.0f64; world::LENT_ROOM];
    let n = world::given(numbers, 2);
    lists::count_from(&mut work, 0.5);
    if n <= world::LENT_ROOM {
        return refiltered(
            values,
            tags,
            flux,
            &mut work[0..n],
            hit_values,
            hit_tags,
            numbers,
        );
    }
    Err(Fault::Past)
}

fn config(values: &[f64], tags: &[u32]) -> HostConfig {
    HostConfig {
        min_power_threshold: lists::number_at(values, world::RUN_VALUES),
        max_bounces: lists::number_at(tags, world::RUN_TAGS),
        ambient: lists::number_at(tags, world::RUN_TAGS + 2),
        a: lists::number_at(values, world::RUN_VALUES + 1),
        b: lists::number_at(values, world::RUN_VALUES + 2),
        c: lists::number_at(values, world::RUN_VALUES + 3),
        d: lists::number_at(values, world::RUN_VALUES + 4),
        e: lists::number_at(values, world::RUN_VALUES + 5),
        f: lists::number_at(values, world::RUN_VALUES + 6),
    }
}

fn put_report(numbers: &mut [u64], r: NonSeqTraceReport) {
    let l = r.ledger;
    let t = r.tallies;
    let all = [
        doubles::to_bits(l.launched_flux_watts),
        doubles::to_bits(l.detected_flux_watts),
        doubles::to_bits(l.absorbed_flux_watts),
        doubles::to_bits(l.escaped_flux_watts),
        doubles::to_bits(l.lost_flux_watts),
        r.total_rays_traced as u64,
        r.total_interactions as u64,
        t.made as u64,
        t.dim as u64,
        t.spent as u64,
        t.caught as u64,
        t.gone as u64,
        t.surface as u64,
        t.weak as u64,
    ];
    lists::put_numbers(numbers, world::REPORT, &all);
    lists::put_numbers(numbers, world::TOLD + 3, &all);
}

// Whether there is room for so many solids and rays.
fn is_inside(solids: usize, rays: usize) -> bool {
    (solids <= world::SOLID_ROOM) & (rays <= world::RAY_ROOM)
}

// What `trace` sends: the solids that are said to be there, and N rays from ray FROM on.
fn send(numbers: &mut [u64]) -> Ran {
    let solids = lists::low_at(numbers, world::SOLIDS) as usize;
    let from = world::given_low(numbers, 0) as usize;
    let n = world::given_low(numbers, 1) as usize;
    if is_inside(solids, from + n) {
        let all = [
            (solids * SOLID_DOUBLES) as u64,
            (solids * SOLID_WHOLES) as u64,
            (n * RAY_DOUBLES) as u64,
            (n * RAY_WHOLES) as u64,
            n as u64,
            (from * RAY_DOUBLES) as u64,
            (from * RAY_WHOLES) as u64,
        ];
        lists::put_numbers(numbers, world::GIVEN, &all);
        return Ok(());
    }
    Err(Fault::Past)
}

// What `trace_lent` sends: so many places from the starts of the lists on, if they are there.
fn send_lent(numbers: &mut [u64]) -> Ran {
    let solids = (world::given(numbers, 0) <= world::SOLID_ROOM * SOLID_DOUBLES)
        & (world::given(numbers, 1) <= world::SOLID_ROOM * SOLID_WHOLES);
    let rays = (world::given(numbers, 2) <= world::RAY_ROOM * RAY_DOUBLES)
        & (world::given(numbers, 3) <= world::RAY_ROOM * RAY_WHOLES);
    lists::clear_numbers(numbers, world::GIVEN + 5, 2);
    done_if(solids & rays)
}

// Places of a list that are sent, from `start` on: as many as the line gives at place i.
fn sent<'a, T>(list: &'a [T], start: usize, numbers: &[u64], i: usize) -> &'a [T] {
    lists::part_from(list, start, world::given(numbers, i))
}

// A tracing of what is sent; it leaves records, number used and report.
fn traced(
    values: &[f64],
    tags: &[u32],
    flux: &mut [f64],
    hits: &mut [u32],
    hit_values: &mut [f64],
    hit_tags: &mut [u32],
    numbers: &mut [u64],
) -> Ran {
    let ray_values = world::RAY_VALUES.wrapping_add(world::given(numbers, 5));
    let ray_tags = world::RAY_TAGS.wrapping_add(world::given(numbers, 6));
    let r = host_tracing::nonseq_trace_rays(
        config(values, tags),
        sent(values, world::SOLID_VALUES, numbers, 0),
        sent(tags, world::SOLID_TAGS, numbers, 1),
        lists::low_at(numbers, world::SOLIDS),
        sent(values, ray_values, numbers, 2),
        sent(tags, ray_tags, numbers, 3),
        world::given_low(numbers, 4),
        world::all_detectors(values, tags, numbers),
        flux,
        hits,
        hit_values,
        hit_tags,
        used(numbers),
    );
    let after = r.detectors;
    let report = r.report;
    world::put_records(numbers, after, r.used);
    world::tell_refusal(numbers, r.refusal, r.place);
    world::tell(numbers, 2, r.used as u64);
    put_report(numbers, report);
    Ok(())
}

pub fn trace(
    values: &[f64],
    tags: &[u32],
    flux: &mut [f64],
    hits: &mut [u32],
    hit_values: &mut [f64],
    hit_tags: &mut [u32],
    numbers: &mut [u64],
) -> Ran {
    send(numbers)?;
    traced(values, tags, flux, hits, hit_values, hit_tags, numbers)
}

pub fn trace_lent(
    values: &[f64],
    tags: &[u32],
    flux: &mut [f64],
    hits: &mut [u32],
    hit_values: &mut [f64],
    hit_tags: &mut [u32],
    numbers: &mut [u64],
) -> Ran {
    send_lent(numbers)?;
    traced(values, tags, flux, hits, hit_values, hit_tags, numbers)
}
