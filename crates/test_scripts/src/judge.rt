// Whether a line went as expected, and what is said where it did not.
use test_words::words::{Fault, Ran};
use test_words::{files, lists, words, world};

pub(crate) fn say(t: &[u8]) {
    io::write_all(1, t);
}

fn say_place(name: &[u8], numbers: &[u64]) {
    say(name);
    say(b":");
    io::print_decimal(1, lists::number_at(numbers, world::LINE));
    say(b": ");
}

// A fault of the line.
pub(crate) fn fault(name: &[u8], what: &[u8], numbers: &mut [u64]) {
    say_place(name, numbers);
    say(what);
    say(b"\n");
    lists::raise(numbers, world::DIFFER, 1);
}

// A fault, if there is one.
pub(crate) fn fault_if(wrong: bool, name: &[u8], what: &[u8], numbers: &mut [u64]) {
    if wrong {
        fault(name, what, numbers);
    }
}

fn compare(name: &[u8], expected: &[u8], found: &[u8], numbers: &mut [u64]) {
    lists::raise(numbers, world::COMPARED, 1);
    if words::agree(expected, found) {
        return;
    }
    say_place(name, numbers);
    say(b"expected ");
    say(expected);
    say(b", found ");
    say(found);
    say(b"\n");
    lists::raise(numbers, world::DIFFER, 1);
}

// A line that was run; `kinds` are those of its answer.
fn answered(name: &[u8], line: &[u8], kinds: &[u8], numbers: &mut [u64]) {
    let mut found = [0u8; 512];
    let n = words::put_told(&mut found, kinds, numbers);
    let expects = fields::end_at(line, 0, b'=') < line.len();
    if fields::is_byte(kinds, b'-') {
        if expects {
            fault(
                name,
                b"it answers nothing, and an answer is expected",
                numbers,
            );
        }
        return;
    }
    compare(
        name,
        words::expected(line),
        files::front(&found, n),
        numbers,
    );
}

pub(crate) fn judge(name: &[u8], line: &[u8], kinds: &[u8], ran: Ran, numbers: &mut [u64]) {
    match ran {
        Err(Fault::Unknown) => fault(name, b"no such verb, or not here", numbers),
        Err(Fault::Malformed) => fault(name, b"its words are not those of its verb", numbers),
        Err(Fault::Past) => fault(name, b"a place or a length is past the room", numbers),
        Err(Fault::Missing) => fault(name, b"a file or bytes of it are missing", numbers),
        Ok(()) => answered(name, line, kinds, numbers),
    }
}
