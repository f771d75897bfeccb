// Runs the vectors in data/ and prints how many lines of each file agree. The answers in the files are the Rust's
// (oracle/), but for vigna.txt, whose are oracle/vigna.c's, and for shape 5, which the Rust does not have.
#![tactic(auto)]

mod detector_lines;
mod lines;
mod parts;
mod solid_lines;
mod tally;

ghost use Rattle.std.specs.Prelude.{◌≡◌};
ghost use Rattle.fields.specs.Split.{text_lines};
ghost use Rattle.test_vectors.specs.Count.{tally_lines_of, empty_of};
ghost use Rattle.test_vectors.specs.Lines.{line_agrees_of};

use lines::Kind;
use std::fs::File;
use std::os::fd::AsRawFd;
use tally::Tally;

// Of the lines of a text.
fn tally_lines(kind: Kind, text: &[u8]) -> Tally
    ensures { result ≡ tally_lines_of (line_agrees_of kind) empty_of (text_lines text.now) }
{
    let mut t = Tally::empty();
    // A cursor and no index: the next line begins behind the end of this one, and `text_lines` has none behind the last newline.
    let mut at: usize = 0;
    while at < text.len() {
        let e = fields::end_at(text, at, b'\n');
        t = t.count(lines::line_agrees(kind, &text[at..e]));
        at = e + 1;
    }
    t
}

// Writes, as "sqrt.txt: 3014 of 3015 lines agree, the first that does not is 12".
fn report(name: &[u8], t: Tally) {
    io::write_all(1, name);
    io::write_all(1, b": ");
    io::print_decimal(1, t.agree);
    io::write_all(1, b" of ");
    io::print_decimal(1, t.lines);
    io::write_all(1, b" lines agree");
    if t.first != 0 {
        io::write_all(1, b", the first that does not is ");
        io::print_decimal(1, t.first);
    }
    io::write_all(1, b"\n");
}

// The lines of an open file, which is read into text.
fn run_into(kind: Kind, path: &str, file: &File, text: &mut [u8]) {
    let n = io::read_full(file.as_raw_fd(), text);
    if n == text.len() {
        io::write_all(1, path.as_bytes());
        io::write_all(1, b" does not fit the buffer\n");
        return;
    }
    report(path.as_bytes(), tally_lines(kind, &text[..n]));
}

// Room for a file's text: a byte more than it may have. A value by its type alone, since the check would lay a literal
// of this length out.
fn room() -> [u8; 524288] {
    [0; 524288]
}

fn run_open(kind: Kind, path: &str, file: &File) {
    let mut text = room();
    run_into(kind, path, file, &mut text);
}

// One file. One that is missing or does not fit is said to be so.
fn run(rt: &HostRuntime, kind: Kind, path: &str) {
    match File::open(rt, path) {
        Ok(file) => run_open(kind, path, &file),
        Err(error) => {
            let _ = eprintln!(rt; "{path}: {error}");
        }
    }
}

fn main(rt: HostRuntime) {
    run(&rt, Kind::Root, "sqrt.txt");
    run(&rt, Kind::Double, "doubles.txt");
    run(&rt, Kind::Draw, "rng.txt");
    run(&rt, Kind::State, "vigna.txt");
    run(&rt, Kind::Vector, "vec3.txt");
    run(&rt, Kind::Matrix, "mat4.txt");
    run(&rt, Kind::Index, "index.txt");
    run(&rt, Kind::Index, "index_edges.txt");
    run(&rt, Kind::Shape, "shapes.txt");
    run(&rt, Kind::Shape, "shape_edges.txt");
    run(&rt, Kind::Shape, "closed.txt");
    run(&rt, Kind::Solid, "solids.txt");
    run(&rt, Kind::Solid, "closed_solids.txt");
    run(&rt, Kind::Crossing, "crossing.txt");
    run(&rt, Kind::Recording, "recording.txt");
}
