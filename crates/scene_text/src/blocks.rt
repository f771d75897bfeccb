// Blocks of lines.
ghost use Rattle.std.specs.Prelude.{◌≡◌, true, ◌+◌, ◌≤◌, ◌<◌, length};
ghost use Rattle.fields.specs.Split.{end_at_of};
ghost use Rattle.scene_text.specs.Blocks.{read_names_of, read_one_of, ends_well_of, read_lines_of};
ghost use Rattle.scene_text.specs.Steps.{table, reading, onto, rest_at, comes_to};
ghost use Rattle.scene_text.specs.Names.{max_text};

use crate::rows::read_row;

// Where the reading of a block stands: whether it goes on, whether all was well formed so far, where the next line starts and its number
// (the first bad or missing one's where not ok), how many lines of values there were, and the places that come next. All of these are there
// in every case, so no Option or Result.
#[derive(Clone, Copy)]
pub struct Found {
    pub more: bool,
    pub ok: bool,
    pub at: usize,
    pub line: u32,
    pub rows: u32,
    pub nd: usize,
    pub nw: usize,
}

// The line that ends at place e.
fn read_line(
    s: &[u8],
    e: usize,
    f: Found,
    names: &[u8],
    form: &[u8],
    d: &mut [f64],
    w: &mut [u32],
) -> Found
    requires { (e ≡ end_at_of s.now f.at 10) × (e < length s.now) × (length s.now ≤ max_text) × (f.at ≤ e) × (f.line ≤ f.at + 1) × (f.rows ≤ f.at) × (f.more ≡ true) }
    ensures nw_after { comes_to s.now names.now form.now result.more result.ok result.at result.line result.rows (table result.ok d.new result.nd w.new result.nw)
        ≡ comes_to s.now names.now form.now f.more f.ok f.at f.line f.rows (table f.ok d.old f.nd w.old f.nw) }
    ensures at_in_bounds { (result.at ≤ length s.now) × (result.line ≤ result.at + 1) × (result.rows ≤ result.at) × (result.more ≡ true → f.at < result.at) }
{
    let at = f.at;
    let l = &s[at..e + 1];
    if l == names {
        return Found {
            more: false,
            ok: true,
            at: e + 1,
            line: f.line + 1,
            ..f
        };
    }
    let r = read_row(l, form, d, f.nd, w, f.nw);
    if r.ok {
        return Found {
            more: true,
            ok: true,
            at: e + 1,
            line: f.line + 1,
            rows: f.rows + 1,
            nd: r.nd,
            nw: r.nw,
        };
    }
    Found {
        more: false,
        ok: false,
        nd: r.nd,
        nw: r.nw,
        ..f
    }
}

// The next line, or the end of the text.
fn read_next(s: &[u8], f: Found, names: &[u8], form: &[u8], d: &mut [f64], w: &mut [u32]) -> Found
    requires { (length s.now ≤ max_text) × (f.at ≤ length s.now) × (f.line ≤ f.at + 1) × (f.rows ≤ f.at) × (f.more ≡ true) }
    ensures nw_after { comes_to s.now names.now form.now result.more result.ok result.at result.line result.rows (table result.ok d.new result.nd w.new result.nw)
        ≡ comes_to s.now names.now form.now f.more f.ok f.at f.line f.rows (table f.ok d.old f.nd w.old f.nw) }
    ensures at_in_bounds { (result.at ≤ length s.now) × (result.line ≤ result.at + 1) × (result.rows ≤ result.at) × (result.more ≡ true → f.at < result.at) }
{
    let e = fields::end_at(s, f.at, b'\n');
    if e < s.len() {
        return read_line(s, e, f, names, form, d, w);
    }
    Found {
        more: false,
        ok: ends_well(e - f.at, names),
        ..f
    }
}

// Whether a text may end here, with so many bytes behind its last LF: none, and with no names to come.
#[tactic(auto, unfolding(crate::specs::Blocks::ends_well_of))]
fn ends_well(bytes: usize, names: &[u8]) -> bool
    ensures { result ≡ ends_well_of bytes names.now }
{
    bytes == 0 && names.is_empty()
}

// Lines of this form up to the line of these names.
pub(crate) fn read_lines(
    s: &[u8],
    from: Found,
    names: &[u8],
    form: &[u8],
    d: &mut [f64],
    w: &mut [u32],
) -> Found
    requires { (length s.now ≤ max_text) × (from.at ≤ length s.now) × (from.line ≤ from.at + 1) }
    ensures at_after { reading result.ok result.line result.rows (table result.ok d.new result.nd w.new result.nw) (rest_at result.ok s.now result.at)
        ≡ onto 0 (table true d.old 0 w.old 0) (read_lines_of names.now form.now (rest_at from.ok s.now from.at) from.line) }
    ensures at_in_bounds { (result.at ≤ length s.now) × (result.line ≤ result.at + 1) }
{
    let mut f = Found {
        more: from.ok,
        rows: 0,
        nd: 0,
        nw: 0,
        ..from
    };
    while f.more {
        f = read_next(s, f, names, form, d, w);
    }
    f
}

// The next line is this line of names: a block without lines of values, since no line has the empty form.
pub(crate) fn read_names(s: &[u8], from: Found, names: &[u8]) -> Found
    requires { (length s.now ≤ max_text) × (from.at ≤ length s.now) × (from.line ≤ from.at + 1) }
    ensures fact { let b = read_names_of names.now (rest_at from.ok s.now from.at) from.line in
        (result.ok ≡ b.ok) × (result.line ≡ b.line) × (rest_at result.ok s.now result.at ≡ b.rest) }
    ensures at_in_bounds { (result.at ≤ length s.now) × (result.line ≤ result.at + 1) }
{
    let mut d = [0.0f64; 1];
    let mut w = [0u32; 1];
    read_lines(s, from, names, b"", &mut d, &mut w)
}

// The next line has this form.
pub(crate) fn read_one(s: &[u8], from: Found, form: &[u8], d: &mut [f64], w: &mut [u32]) -> Found
    requires { (length s.now ≤ max_text) × (from.at ≤ length s.now) × (from.line ≤ from.at + 1) }
    ensures at_after { reading result.ok result.line result.rows (table result.ok d.new result.nd w.new result.nw) (rest_at result.ok s.now result.at)
        ≡ onto 0 (table true d.old 0 w.old 0) (read_one_of form.now (rest_at from.ok s.now from.at) from.line) }
    ensures at_in_bounds { (result.at ≤ length s.now) × (result.line ≤ result.at + 1) }
{
    if from.ok {
        let e = fields::end_at(s, from.at, b'\n');
        if e < s.len() {
            let at = from.at;
            let r = read_row(&s[at..e + 1], form, d, 0, w, 0);
            if r.ok {
                return Found {
                    more: false,
                    ok: true,
                    at: e + 1,
                    line: from.line + 1,
                    rows: 1,
                    nd: r.nd,
                    nw: r.nw,
                };
            }
            return Found {
                more: false,
                ok: false,
                rows: 0,
                nd: r.nd,
                nw: r.nw,
                ..from
            };
        }
    }
    Found {
        more: false,
        ok: false,
        rows: 0,
        nd: 0,
        nw: 0,
        ..from
    }
}
