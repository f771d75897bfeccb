// The calls behind the verbs.
use test_memory::{calls, set_up};
use test_words::verbs::Verb;
use test_words::words::{Fault, Ran};
use test_words::{lists, world};

// A script begins: with zeros.
fn begin(values: &mut [f64], tags: &mut [u32], numbers: &mut [u64]) -> Ran {
    values.fill(0.0);
    tags.fill(0);
    lists::clear_numbers(numbers, world::OF_SCRIPT, world::GIVEN - world::OF_SCRIPT);
    lists::raise(numbers, world::SCRIPTS, 1);
    lists::raise(numbers, world::IN_FILE, 1);
    lists::put_number(numbers, world::INSIDE, 1);
    Ok(())
}

fn end(numbers: &mut [u64]) -> Ran {
    lists::put_number(numbers, world::INSIDE, 0);
    Ok(())
}

// The scene text in its room.
fn scene_text<'a>(text: &'a [u8], numbers: &[u64]) -> &'a [u8] {
    &text[..lists::few(numbers, world::TEXT, text.len())]
}

// The first n bytes of the room for what is written.
fn part_of(written: &mut [u8], n: usize) -> Result<&mut [u8], Fault> {
    if n <= written.len() {
        return Ok(&mut written[..n]);
    }
    Err(Fault::Past)
}

// The line at which the file stands. What sets up has all of the rooms; the calls have what is lent of them.
pub(crate) fn run(
    rt: &HostRuntime,
    verb: Verb,
    all: &[u8],
    text: &mut [u8],
    values: &mut [f64],
    tags: &mut [u32],
    flux: &mut [f64],
    hits: &mut [u32],
    hit_values: &mut [f64],
    hit_tags: &mut [u32],
    numbers: &mut [u64],
    written: &mut [u8],
) -> Ran {
    let a = lists::few(numbers, world::FLUX_LENT, flux.len());
    let b = lists::few(numbers, world::HITS_LENT, hits.len());
    let c = lists::few(numbers, world::HIT_VALUES_LENT, hit_values.len());
    let d = lists::few(numbers, world::HIT_TAGS_LENT, hit_tags.len());
    match verb {
        Verb::Script => begin(values, tags, numbers),
        Verb::End => end(numbers),
        Verb::Used => set_up::number(numbers, world::USED),
        Verb::Solids => set_up::number(numbers, world::SOLIDS),
        Verb::Detectors => set_up::number(numbers, world::DETECTORS),
        Verb::Cut => set_up::cut(numbers),
        Verb::Text => set_up::text(all, text, numbers),
        Verb::File => set_up::file(rt, all, text, numbers),
        Verb::Byte => set_up::byte(text, numbers),
        Verb::Read => test_texts::read(scene_text(text, numbers), values, tags, numbers),
        Verb::Map => {
            let buf = part_of(written, world::given(numbers, 0))?;
            test_texts::map(scene_text(text, numbers), numbers, buf)
        }
        Verb::Refusal => {
            let buf = part_of(written, world::given(numbers, 2))?;
            test_texts::refusal(numbers, buf)
        }
        Verb::Written => test_texts::written(rt, all, written, numbers),
        Verb::Lend => set_up::lend(flux, hits, hit_values, hit_tags, numbers),
        Verb::Empty => set_up::empty(flux, hits, numbers),
        Verb::Set => set_up::set(values, tags, flux, hits, hit_values, hit_tags, numbers),
        Verb::Trace => calls::trace(
            values,
            tags,
            &mut flux[..a],
            &mut hits[..b],
            &mut hit_values[..c],
            &mut hit_tags[..d],
            numbers,
        ),
        Verb::TraceLent => calls::trace_lent(
            values,
            tags,
            &mut flux[..a],
            &mut hits[..b],
            &mut hit_values[..c],
            &mut hit_tags[..d],
            numbers,
        ),
        Verb::Record => calls::record(
            values,
            tags,
            &mut flux[..a],
            &mut hits[..b],
            &mut hit_values[..c],
            &mut hit_tags[..d],
            numbers,
        ),
        Verb::New => test_readings::new(numbers),
        Verb::Check => test_readings::check(values, tags, numbers),
        Verb::CheckAll => test_readings::check_all(values, tags, numbers),
        Verb::Cross => test_readings::cross(values, tags, numbers),
        Verb::Area => test_readings::area(values, tags, numbers),
        Verb::Part => test_readings::part(values, tags, numbers),
        Verb::Irradiance => test_readings::irradiance(values, tags, &flux[..a], numbers),
        Verb::Ratio => test_texts::ratio(numbers),
        Verb::Refilter => calls::refilter(
            values,
            tags,
            &flux[..a],
            &hit_values[..c],
            &hit_tags[..d],
            numbers,
        ),
        Verb::Answer => {
            let buf = part_of(written, world::given(numbers, 1))?;
            test_texts::answer(
                values,
                tags,
                &flux[..a],
                &hit_values[..c],
                &hit_tags[..d],
                numbers,
                buf,
            )
        }
        Verb::Pixel => test_readings::pixel(&flux[..a], &hits[..b], numbers),
        Verb::Caught => test_readings::caught(numbers),
        Verb::Hit => test_readings::hit(&hit_values[..c], &hit_tags[..d], numbers),
        Verb::Memory => test_readings::memory(
            &flux[..a],
            &hits[..b],
            &hit_values[..c],
            &hit_tags[..d],
            numbers,
        ),
    }
}
