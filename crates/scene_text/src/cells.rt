// Cells: the numbers of a line, and the slices that they go to.
ghost use Rattle.std.specs.Prelude.{◌≡◌, true, [], ◌∷◌, ◌-◌};
ghost use Rattle.fields.specs.Number.{read_bits_of, read_whole_of};
ghost use Rattle.scene_text.specs.Cells.{double_cell, whole_cell, read_below_of, read_filter_of, read_number_of, read_cell_of};
ghost use Rattle.scene_text.specs.Tables.{filled, put_all};
ghost use Rattle.scene_text.specs.Steps.{table, put};

use crate::media::read_media;

// The number of the filter `-`, which is kept apart from 0.
pub const NO_FILTER: u32 = 5;

// Whether a cell is well formed, and the places that come next: these are there in either case, so no Option.
#[derive(Clone, Copy)]
pub struct Cells {
    pub ok: bool,
    pub nd: usize,
    pub nw: usize,
}

// A value at place `at`, and the place after it; a value for which there is no place is dropped.
#[tactic(auto, unfolding(crate::specs::Tables::put_all, crate::specs::Tables::next_at))]
pub fn put_value<T: Copy>(s: &mut [T], at: usize, x: T) -> usize
    ensures { filled s.new result ≡ put_all s.old at (x ∷ []) }
{
    if at < s.len() {
        s[at] = x;
        return at + 1;
    }
    at
}

#[tactic(auto, unfolding(crate::specs::Steps::put, crate::specs::Cells::double_cell, crate::specs::Tables::put_all))]
fn read_double(f: &[u8], d: &mut [f64], nd: usize, w: &mut [u32], nw: usize) -> Cells
    ensures { table result.ok d.new result.nd w.new result.nw
        ≡ put (double_cell (read_bits_of f.now)) (table true d.old nd w.old nw) }
{
    match fields::read_bits(f) {
        Some(b) => Cells {
            ok: true,
            nd: put_value(d, nd, doubles::from_bits(b)),
            nw,
        },
        None => Cells { ok: false, nd, nw },
    }
}

#[tactic(auto, unfolding(crate::specs::Steps::put, crate::specs::Cells::whole_cell, crate::specs::Tables::put_all))]
fn put_whole(v: Option<u32>, d: &mut [f64], nd: usize, w: &mut [u32], nw: usize) -> Cells
    ensures { table result.ok d.new result.nd w.new result.nw
        ≡ put (whole_cell v) (table true d.old nd w.old nw) }
{
    match v {
        Some(x) => Cells {
            ok: true,
            nd,
            nw: put_value(w, nw, x),
        },
        None => Cells { ok: false, nd, nw },
    }
}

#[tactic(auto, unfolding(crate::specs::Cells::read_below_of))]
fn read_below(f: &[u8], m: u32) -> Option<u32>
    ensures { result ≡ read_below_of m (read_whole_of f.now) }
{
    fields::read_whole(f).filter(|n| *n < m)
}

#[tactic(auto, unfolding(crate::specs::Cells::read_filter_of))]
fn read_filter(f: &[u8]) -> Option<u32>
    ensures { result ≡ read_filter_of f.now }
{
    if fields::is_byte(f, b'-') {
        return Some(NO_FILTER);
    }
    read_below(f, 5)
}

#[tactic(auto, unfolding(crate::specs::Cells::read_number_of))]
fn read_number(kind: u8, f: &[u8]) -> Option<u32>
    ensures { result ≡ read_number_of kind f.now }
{
    match kind {
        b'f' => read_filter(f),
        b'n' => fields::read_whole(f),
        _ => read_below(f, u32::from(kind.saturating_sub(b'0'))),
    }
}

// A cell of any kind.
#[tactic(auto, unfolding(crate::specs::Cells::read_cell_of))]
pub fn read_cell(kind: u8, f: &[u8], d: &mut [f64], nd: usize, w: &mut [u32], nw: usize) -> Cells
    ensures { table result.ok d.new result.nd w.new result.nw
        ≡ put (read_cell_of kind f.now) (table true d.old nd w.old nw) }
{
    match kind {
        b'd' => read_double(f, d, nd, w, nw),
        b'l' => read_media(f, d, nd, w, nw),
        _ => put_whole(read_number(kind, f), d, nd, w, nw),
    }
}
