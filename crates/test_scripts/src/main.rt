// Runs the scripts of data/ (data/README.md): lists of calls on one memory, each with what it is to answer. Prints
// every line that differs or can't be run, with its file, and at the end how many scripts and lines there were. Before
// that it runs data/damaged, of which every kind of damage must be told.
#![tactic(auto)]

mod judge;
mod script;

ghost use Rattle.std.specs.Prelude.{◌<◌};

use test_words::verbs::Verb;
use test_words::words::Fault;
use test_words::{files, lists, words, world};

// A byte more than a file may have.
const FILE_ROOM: usize = 524289;

const TABLE_ROOM: usize = 4097;

// `next`, or the place behind `at` where `next` is not behind it.
fn later(at: usize, next: usize) -> usize
    requires { at < 18446744073709551615 }
    ensures { at < result }
{
    if at < next {
        return next;
    }
    at + 1
}

// Whether a line is empty or a remark.
fn is_passed_over(line: &[u8]) -> bool {
    line.is_empty() || line[0] == b'#'
}

// Whether a line of that verb may stand here: `script` outside of a script, all else inside.
fn is_here(verb: Verb, numbers: &[u64]) -> bool {
    let inside = lists::number_at(numbers, world::INSIDE) == 1;
    inside != (verb == Verb::Script)
}

// The verb of a line that can be run: its words are read then.
fn read_line(table: &[u8], line: &[u8], numbers: &mut [u64]) -> Result<Verb, Fault> {
    let asked = words::asked(line);
    let verb = words::verb_named(table, words::word(asked, 0)).ok_or(Fault::Unknown)?;
    if !is_here(verb, numbers) {
        return Err(Fault::Unknown);
    }
    if !words::read(asked, words::kinds_given(table, verb), numbers) {
        return Err(Fault::Malformed);
    }
    Ok(verb)
}

// The line and what belongs to it are behind.
fn go_on(all: &[u8], numbers: &mut [u64]) {
    let from = words::end_in(all, numbers).wrapping_add(1);
    let to = from.wrapping_add(lists::number_at(numbers, world::BEHIND) as usize);
    let lines = fields::count_parts(files::between(all, from, to), b'\n');
    lists::put_number(numbers, world::AT, to as u64);
    lists::raise(numbers, world::LINE, lines as u64);
    lists::put_number(numbers, world::BEHIND, 0);
}

// The line where the file stands: run and judged.
fn step(
    rt: &HostRuntime,
    name: &[u8],
    table: &[u8],
    all: &[u8],
    text: &mut [u8],
    values: &mut [f64],
    tags: &mut [u32],
    flux: &mut [f64],
    hits: &mut [u32],
    hit_values: &mut [f64],
    hit_tags: &mut [u32],
    numbers: &mut [u64],
    written: &mut [u8],
) {
    let line = words::line_in(all, numbers);
    if is_passed_over(line) {
        return;
    }
    match read_line(table, line, numbers) {
        Ok(verb) => {
            let ran = script::run(
                rt, verb, all, text, values, tags, flux, hits, hit_values, hit_tags, numbers,
                written,
            );
            judge::judge(name, line, words::kinds_told(table, verb), ran, numbers);
        }
        Err(fault) => judge::judge(name, line, b"-", Err(fault), numbers),
    }
}

// All lines of a file.
fn run_lines(rt: &HostRuntime, name: &[u8], table: &[u8], all: &[u8], numbers: &mut [u64]) {
    let mut text = [0u8; world::TEXT_ROOM + 1];
    let mut values = [0.0f64; world::DOUBLES];
    let mut tags = [0u32; world::WHOLES];
    let mut flux = [0.0f64; world::LENT_ROOM];
    let mut hits = [0u32; world::LENT_ROOM];
    let mut hit_values = [0.0f64; world::LENT_ROOM];
    let mut hit_tags = [0u32; world::LENT_ROOM];
    let mut written = [0u8; world::WRITTEN_ROOM];
    // A cursor and no index: a line says itself how much behind it belongs to it.
    let mut at: usize = 0;
    while at < all.len() {
        step(
            rt,
            name,
            table,
            all,
            &mut text,
            &mut values,
            &mut tags,
            &mut flux,
            &mut hits,
            &mut hit_values,
            &mut hit_tags,
            numbers,
            &mut written,
        );
        go_on(all, numbers);
        at = later(at, lists::number_at(numbers, world::AT) as usize);
    }
}

// Whether a file was not read whole: it is missing or empty, or it fills a buffer that has a byte more than it may have.
fn is_not_whole(n: usize, room: usize) -> bool {
    (n == 0) | (n == room)
}

// What is wrong with a file as a whole.
fn judge_file(name: &[u8], all: &[u8], said: u64, numbers: &mut [u64]) {
    let inside = lists::number_at(numbers, world::INSIDE) == 1;
    let cut = lists::number_at(numbers, world::AT) != all.len() as u64;
    let other = lists::number_at(numbers, world::IN_FILE) != said;
    judge::fault_if(
        is_not_whole(all.len(), FILE_ROOM),
        name,
        b"missing, empty or too long",
        numbers,
    );
    judge::fault_if(inside, name, b"the file ends inside a script", numbers);
    judge::fault_if(cut, name, b"the last line has no end", numbers);
    judge::fault_if(
        other,
        name,
        b"not as many scripts as the index says",
        numbers,
    );
}

// A file's text of scripts, which is said to have so many.
fn run_text(
    rt: &HostRuntime,
    name: &[u8],
    table: &[u8],
    all: &[u8],
    said: u64,
    numbers: &mut [u64],
) {
    lists::put_number(numbers, world::AT, 0);
    lists::put_number(numbers, world::LINE, 1);
    lists::put_number(numbers, world::INSIDE, 0);
    lists::put_number(numbers, world::IN_FILE, 0);
    run_lines(rt, name, table, all, numbers);
    judge_file(name, all, said, numbers);
}

// Room for a file. A value by its type alone, since the check would lay a literal of this length out.
fn room() -> [u8; FILE_ROOM] {
    [0; FILE_ROOM]
}

fn run_file(rt: &HostRuntime, name: &[u8], table: &[u8], said: u64, numbers: &mut [u64]) {
    let mut buf = room();
    let n = files::read(rt, name, &mut buf);
    run_text(rt, name, table, files::front(&buf, n), said, numbers);
}

// A line of the index: a file and how many scripts it has.
fn run_indexed(rt: &HostRuntime, line: &[u8], table: &[u8], numbers: &mut [u64]) {
    lists::raise(numbers, world::INDEXED, 1);
    lists::put_number(
        numbers,
        world::LINE,
        lists::number_at(numbers, world::INDEXED),
    );
    if words::read(line, b"n", numbers) {
        return run_file(
            rt,
            words::word(line, 0),
            table,
            world::given(numbers, 0) as u64,
            numbers,
        );
    }
    judge::fault(
        b"index.txt",
        b"a line that is no file and a number",
        numbers,
    )
}

fn run_all(rt: &HostRuntime, index: &[u8], table: &[u8], numbers: &mut [u64]) {
    for line in index.split_inclusive(|b| *b == b'\n') {
        run_indexed(rt, line.strip_suffix(b"\n").unwrap_or(line), table, numbers);
    }
}

// Whether a text ends with a newline.
fn is_ended(t: &[u8]) -> bool {
    t.ends_with(b"\n")
}

// What is wrong with the index and the table of verbs.
fn judge_tables(index: &[u8], table: &[u8], numbers: &mut [u64]) {
    let cut = is_not_whole(index.len(), TABLE_ROOM);
    judge::fault_if(cut, b"index.txt", b"missing, empty or too long", numbers);
    judge::fault_if(
        !is_ended(index),
        b"index.txt",
        b"the last line has no end",
        numbers,
    );
    let other = is_not_whole(table.len(), TABLE_ROOM);
    judge::fault_if(other, b"verbs", b"missing, empty or too long", numbers);
}

// The damaged script, counted apart, then all that the index names.
fn run(rt: &HostRuntime, index: &[u8], table: &[u8], numbers: &mut [u64]) {
    run_file(rt, b"damaged", table, 9, numbers);
    lists::clear_numbers(numbers, 0, world::NUMBERS);
    run_all(rt, index, table, numbers);
    judge_tables(index, table, numbers);
}

fn main(rt: HostRuntime) {
    let mut index = [0u8; TABLE_ROOM];
    let mut table = [0u8; TABLE_ROOM];
    let mut numbers = [0u64; world::NUMBERS];
    let n = files::read(&rt, b"index.txt", &mut index);
    let k = files::read(&rt, b"verbs", &mut table);
    run(
        &rt,
        files::front(&index, n),
        files::front(&table, k),
        &mut numbers,
    );
    io::print_decimal(1, lists::number_at(&numbers, world::SCRIPTS));
    judge::say(b" scripts, ");
    io::print_decimal(1, lists::number_at(&numbers, world::COMPARED));
    judge::say(b" lines compared, ");
    io::print_decimal(1, lists::number_at(&numbers, world::DIFFER));
    judge::say(b" differ\n");
}
