// Lines that set up what the calls after them work on.
use test_words::words::{Fault, Ran, done_if};
use test_words::{files, lists, words, world};

// The next N bytes are the scene text, and a newline follows them.
pub fn text(all: &[u8], text: &mut [u8], numbers: &mut [u64]) -> Ran {
    let behind = words::behind_in(all, numbers);
    let n = world::given_low(numbers, 0) as usize;
    if fields::is_byte(files::between(behind, n, n + 1), b'\n') {
        lists::put_number(numbers, world::TEXT, n as u64);
        lists::put_number(numbers, world::BEHIND, n as u64 + 1);
        printing::put_all(text, 0, files::front(behind, n));
        return done_if(n <= world::TEXT_ROOM);
    }
    Err(Fault::Missing)
}

// The scene text is a file of that name; `text` has a byte more than the room.
pub fn file(rt: &HostRuntime, all: &[u8], text: &mut [u8], numbers: &mut [u64]) -> Ran {
    let n = files::read(rt, words::word(words::line_in(all, numbers), 1), text);
    lists::put_number(numbers, world::TEXT, n as u64);
    if 0 < n {
        return done_if(n <= world::TEXT_ROOM);
    }
    Err(Fault::Missing)
}

pub fn byte(text: &mut [u8], numbers: &[u64]) -> Ran {
    let i = world::given(numbers, 0);
    let b = (world::given_low(numbers, 1) % 256) as u8;
    let inside = i < lists::number_at(numbers, world::TEXT) as usize;
    if inside & (world::given(numbers, 1) < 256) {
        return done_if(lists::put_number(text, i, b));
    }
    Err(Fault::Past)
}

pub fn cut(numbers: &mut [u64]) -> Ran {
    let n = world::given(numbers, 0) as u64;
    if n <= lists::number_at(numbers, world::TEXT) {
        lists::put_number(numbers, world::TEXT, n);
        return Ok(());
    }
    Err(Fault::Past)
}

// A number that the script says.
pub fn number(numbers: &mut [u64], i: usize) -> Ran {
    lists::put_number(numbers, i, world::given(numbers, 0) as u64);
    Ok(())
}

// Whether the room has so many places of each.
fn are_lent(numbers: &[u64]) -> bool {
    let maps = (world::given(numbers, 0) <= world::LENT_ROOM)
        & (world::given(numbers, 1) <= world::LENT_ROOM);
    let list = (world::given(numbers, 2) <= world::LENT_ROOM)
        & (world::given(numbers, 3) <= world::LENT_ROOM);
    maps & list
}

// How many places are lent.
fn put_lengths(numbers: &mut [u64]) -> Ran {
    if are_lent(numbers) {
        lists::put_number(numbers, world::FLUX_LENT, world::given(numbers, 0) as u64);
        lists::put_number(numbers, world::HITS_LENT, world::given(numbers, 1) as u64);
        lists::put_number(
            numbers,
            world::HIT_VALUES_LENT,
            world::given(numbers, 2) as u64,
        );
        lists::put_number(
            numbers,
            world::HIT_TAGS_LENT,
            world::given(numbers, 3) as u64,
        );
        return Ok(());
    }
    Err(Fault::Past)
}

// The pattern goes to all places, also to those that are not lent.
pub fn lend(
    flux: &mut [f64],
    hits: &mut [u32],
    hit_values: &mut [f64],
    hit_tags: &mut [u32],
    numbers: &mut [u64],
) -> Ran {
    lists::count_from(flux, 0.25);
    lists::count_from(hits, 1);
    lists::count_from(hit_values, 1000.5);
    lists::count_from(hit_tags, 5000);
    put_lengths(numbers)
}

pub fn empty(flux: &mut [f64], hits: &mut [u32], numbers: &mut [u64]) -> Ran {
    flux.fill(0.0);
    hits.fill(0);
    lists::clear_numbers(numbers, world::TOTALS, 16);
    lists::put_number(numbers, world::USED, 0);
    Ok(())
}

// A number into place i of n from `first` on.
fn set_number<T: Copy>(list: &mut [T], first: usize, n: usize, i: usize, x: T) -> Ran {
    if i < n {
        return done_if(lists::put_number(list, first.wrapping_add(i), x));
    }
    Err(Fault::Past)
}

// A place of the eight lists: of doubles, of whole numbers.
fn set_value(values: &mut [f64], numbers: &[u64]) -> Ran {
    let solids = world::DETECTOR_VALUES - world::SOLID_VALUES;
    let detectors = world::RAY_VALUES - world::DETECTOR_VALUES;
    let rays = world::DOUBLES - world::RAY_VALUES;
    let i = world::given(numbers, 1);
    let x = world::given_double(numbers, 2);
    match world::given(numbers, 0) {
        0 => set_number(values, world::RUN_VALUES, world::SOLID_VALUES, i, x),
        1 => set_number(values, world::SOLID_VALUES, solids, i, x),
        2 => set_number(values, world::DETECTOR_VALUES, detectors, i, x),
        _ => set_number(values, world::RAY_VALUES, rays, i, x),
    }
}

fn set_tag(tags: &mut [u32], numbers: &[u64]) -> Ran {
    let solids = world::DETECTOR_TAGS - world::SOLID_TAGS;
    let detectors = world::RAY_TAGS - world::DETECTOR_TAGS;
    let rays = world::WHOLES - world::RAY_TAGS;
    let i = world::given(numbers, 1);
    let n = world::given_low(numbers, 2);
    match world::given(numbers, 0) {
        7 => set_number(tags, world::RUN_TAGS, world::SOLID_TAGS, i, n),
        8 => set_number(tags, world::SOLID_TAGS, solids, i, n),
        9 => set_number(tags, world::DETECTOR_TAGS, detectors, i, n),
        _ => set_number(tags, world::RAY_TAGS, rays, i, n),
    }
}

// A total or a count of the eight detectors.
fn set_record(first: usize, numbers: &mut [u64]) -> Ran {
    let i = world::given(numbers, 1);
    let n = world::given(numbers, 2) as u64;
    set_number(numbers, first, 8, i, n)
}

// How many places of a lent slice there are.
fn lent(numbers: &[u64], i: usize) -> usize {
    lists::number_at(numbers, i) as usize
}

// A place of a list by its number: one that is read, one that is lent, or the records.
pub fn set(
    values: &mut [f64],
    tags: &mut [u32],
    flux: &mut [f64],
    hits: &mut [u32],
    hit_values: &mut [f64],
    hit_tags: &mut [u32],
    numbers: &mut [u64],
) -> Ran {
    let i = world::given(numbers, 1);
    let x = world::given_double(numbers, 2);
    let n = world::given_low(numbers, 2);
    match world::given(numbers, 0) {
        0..=3 => set_value(values, numbers),
        4 => set_record(world::TOTALS, numbers),
        5 => set_number(flux, 0, lent(numbers, world::FLUX_LENT), i, x),
        6 => set_number(hit_values, 0, lent(numbers, world::HIT_VALUES_LENT), i, x),
        7..=10 => set_tag(tags, numbers),
        11 => set_record(world::COUNTS, numbers),
        12 => set_number(hits, 0, lent(numbers, world::HITS_LENT), i, n),
        _ => set_number(hit_tags, 0, lent(numbers, world::HIT_TAGS_LENT), i, n),
    }
}
