// The words of a line: its verb, what it gives and what it expects, and what was found as text. A text of kinds says
// what the words are: n a whole number below 2^32, l one below 2^64, d a double, h a digest, s a list by its name,
// x a number of that list, w any word, - no word.
use crate::verbs::Verb;
use crate::{files, lists, world};

// Why a line can't be run.
#[derive(Clone, Copy)]
pub enum Fault {
    // no such verb, or not here
    Unknown,
    // not the words of its verb
    Malformed,
    // a place or a length past the room
    Past,
    // a file, or bytes of it
    Missing,
}

// How a line went.
pub type Ran = Result<(), Fault>;

pub fn done_if(done: bool) -> Ran {
    if done { Ok(()) } else { Err(Fault::Past) }
}

// Where the line ends at which the file stands; the line; what follows it.
pub fn end_in(all: &[u8], numbers: &[u64]) -> usize {
    fields::end_at(all, lists::number_at(numbers, world::AT) as usize, b'\n')
}

pub fn line_in<'a>(all: &'a [u8], numbers: &[u64]) -> &'a [u8] {
    files::between(
        all,
        lists::number_at(numbers, world::AT) as usize,
        end_in(all, numbers),
    )
}

pub fn behind_in<'a>(all: &'a [u8], numbers: &[u64]) -> &'a [u8] {
    files::between(all, end_in(all, numbers).wrapping_add(1), all.len())
}

// The kinds that the table has for a verb.
pub fn kinds_given(table: &[u8], verb: Verb) -> &[u8] {
    word(fields::part(table, b'\n', verb as usize), 1)
}

pub fn kinds_told(table: &[u8], verb: Verb) -> &[u8] {
    word(fields::part(table, b'\n', verb as usize), 2)
}

// The verb of that name. A name that the table has not is that of the line behind its last: no verb, unless the table is
// short.
pub fn verb_named(table: &[u8], name: &[u8]) -> Option<Verb> {
    let behind = fields::count_parts(table, b'\n');
    Verb::numbered(found_in(table, name).unwrap_or(behind))
}

// The line up to ` =`, or all of it.
pub fn asked(line: &[u8]) -> &[u8] {
    let e = fields::end_at(line, 0, b'=');
    let before = e.wrapping_sub(1);
    if e < line.len() && fields::is_byte(files::between(line, before, e), b' ') {
        return files::front(line, before);
    }
    line
}

// What stands behind ` = `; nothing where it does not stand there.
pub fn expected(line: &[u8]) -> &[u8] {
    let e = fields::end_at(line, 0, b'=');
    let start = e.wrapping_add(2);
    if fields::is_byte(files::between(line, e.wrapping_add(1), start), b' ') {
        return files::between(line, start, line.len());
    }
    &[]
}

pub fn word(words: &[u8], k: usize) -> &[u8] {
    fields::part(words, b' ', k)
}

// Which line of the table has the word in front.
fn found_in(table: &[u8], name: &[u8]) -> Option<usize> {
    let n = fields::count_parts(table, b'\n');
    (0..n).find(|k| word(fields::part(table, b'\n', *k), 0) == name)
}

fn read_whole(t: &[u8], into: &mut [u64], i: usize) -> bool {
    match fields::read_whole(t) {
        Some(n) => {
            lists::put_number(into, i, n as u64);
            true
        }
        None => false,
    }
}

fn read_double(t: &[u8], into: &mut [u64], i: usize) -> bool {
    match fields::read_bits(t) {
        Some(b) => {
            lists::put_number(into, i, doubles::to_bits(doubles::from_bits(b)));
            true
        }
        None => false,
    }
}

// The digit that a byte is.
fn digit(b: u8) -> Option<u64> {
    match b {
        b'0'..=b'9' => Some(u64::from(b - b'0')),
        _ => None,
    }
}

// A whole number below 2^64, which no 0 leads; 0 where there is no digit.
fn long(t: &[u8]) -> Option<u64> {
    if t.len() > 1 && t[0] == b'0' {
        return None;
    }
    let mut n: u64 = 0;
    for b in t {
        n = n.checked_mul(10)?.checked_add(digit(*b)?)?;
    }
    Some(n)
}

fn read_long(t: &[u8], into: &mut [u64], i: usize) -> bool {
    match long(t) {
        Some(n) => {
            lists::put_number(into, i, n);
            !t.is_empty()
        }
        None => false,
    }
}

// A list by its name; the first seven are lists of doubles, and a name of none has the number behind them all.
fn read_list(t: &[u8], into: &mut [u64], i: usize) -> bool {
    let names =
        b"run_values\nsolid_values\ndetector_values\nray_values\ntotals\nflux\nhit_values\nrun_tags\nsolid_tags\ndetector_tags\nray_tags\ncounts\nhits\nhit_tags";
    let k = found_in(names, t);
    let behind = fields::count_parts(names, b'\n');
    lists::put_number(into, i, k.unwrap_or(behind) as u64);
    k.is_some()
}

// A number of the list that is given first.
fn read_element(t: &[u8], into: &mut [u64], i: usize) -> bool {
    if world::given(into, 0) < 7 {
        return read_double(t, into, i);
    }
    read_whole(t, into, i)
}

// A word of that kind.
fn read_word(t: &[u8], kind: u8, into: &mut [u64], i: usize) -> bool {
    match kind {
        b'n' => read_whole(t, into, i),
        b'l' => read_long(t, into, i),
        b'd' => read_double(t, into, i),
        b's' => read_list(t, into, i),
        b'x' => read_element(t, into, i),
        b'w' => !t.is_empty(),
        _ => false,
    }
}

// The words behind the verb, if they are of those kinds and no more, as what the line gives.
pub fn read(words: &[u8], kinds: &[u8], numbers: &mut [u64]) -> bool {
    if fields::is_byte(kinds, b'-') {
        return fields::count_parts(words, b' ') == 1;
    }
    if fields::count_parts(words, b' ') != kinds.len().wrapping_add(1) {
        return false;
    }
    let mut ok = true;
    for (i, kind) in kinds.iter().enumerate() {
        let at = world::GIVEN.wrapping_add(i);
        ok &= read_word(word(words, i + 1), *kind, numbers, at);
    }
    ok
}

fn put_word(found: &mut [u8], at: usize, kind: u8, n: u64) -> usize {
    match kind {
        b'n' => printing::put_decimal(found, at, n),
        b'd' if n == 0x7ff8_0000_0000_0000 => printing::put_all(found, at, b"nan"),
        _ => printing::put_hex(found, at, n),
    }
}

// A space between two words.
fn put_gap(found: &mut [u8], at: usize) -> usize {
    if 0 < at {
        return printing::put(found, at, b' ');
    }
    at
}

// What the line was answered, as text.
pub fn put_told(found: &mut [u8], kinds: &[u8], numbers: &[u64]) -> usize {
    let mut p: usize = 0;
    for (i, kind) in kinds.iter().enumerate() {
        let told = lists::number_at(numbers, world::TOLD.wrapping_add(i));
        let at = put_gap(found, p);
        p = put_word(found, at, *kind, told);
    }
    p
}

// Whether a word is what is expected; `?` expects any.
fn is_expected(e: &[u8], found: &[u8]) -> bool {
    fields::is_byte(e, b'?') || e == found
}

// Whether what was found is what is expected, word by word.
pub fn agree(expected: &[u8], found: &[u8]) -> bool {
    let n = fields::count_parts(expected, b' ');
    n == fields::count_parts(found, b' ')
        && (0..n).all(|k| is_expected(word(expected, k), word(found, k)))
}
