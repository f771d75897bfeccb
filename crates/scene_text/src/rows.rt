// A line of values, cell by cell.
ghost use Rattle.std.specs.Prelude.{◌≡◌, true, List, [], ◌∷◌, ℕ, ◌≤◌, length, Float};
ghost use Rattle.scene_text.specs.Lines.{read_row_of};
ghost use Rattle.scene_text.specs.Steps.{table, put, line_from};

use crate::cells::read_cell;

// Whether a line is well formed so far, where its next cell starts, and the places that come next: these are there in
// either case, so no Option.
#[derive(Clone, Copy)]
pub struct Row {
    pub ok: bool,
    pub at: usize,
    pub nd: usize,
    pub nw: usize,
}

// The next cell, which ends before the byte `end`.
fn next_cell(line: &[u8], kind: u8, end: u8, r: Row, d: &mut [f64], w: &mut [u32]) -> Row
    requires { r.at ≤ length line.now }
    ensures by_index { (form : List ℕ) → line_from line.now result.at form (table result.ok d.new result.nd w.new result.nw)
        ≡ line_from line.now r.at (kind ∷ end ∷ form) (table r.ok d.old r.nd w.old r.nw) }
    ensures at_in_bounds { result.at ≤ length line.now }
{
    if r.ok {
        let e = fields::end_at(line, r.at, end);
        if e < line.len() {
            let at = r.at;
            let c = read_cell(kind, &line[at..e], d, r.nd, w, r.nw);
            return Row {
                ok: c.ok,
                at: e + 1,
                nd: c.nd,
                nw: c.nw,
            };
        }
        return Row { ok: false, ..r };
    }
    r
}

// Nothing stands behind the last cell.
fn ends_there(line: &[u8], r: Row) -> bool
    requires { r.at ≤ length line.now }
    ensures { (d : List Float) (w : List ℕ) → table result d r.nd w r.nw ≡ line_from line.now r.at [] (table r.ok d r.nd w r.nw) }
{
    r.ok && r.at == line.len()
}

// A line, its LF included, of this form.
pub fn read_row(line: &[u8], form: &[u8], d: &mut [f64], nd: usize, w: &mut [u32], nw: usize) -> Row
    ensures { table result.ok d.new result.nd w.new result.nw
        ≡ put (read_row_of form.now line.now) (table true d.old nd w.old nw) }
{
    let mut r = Row {
        ok: true,
        at: 0,
        nd,
        nw,
    };
    let mut cells = form;
    while let [kind, end, more @ ..] = cells {
        r = next_cell(line, *kind, *end, r, d, w);
        cells = more;
    }
    Row {
        ok: ends_there(line, r),
        ..r
    }
}
