// Media: whole numbers joined by commas.
ghost use Rattle.std.specs.Prelude.{◌≡◌, true, List, ◌∷◌, ℕ, suc, ◌+◌, ◌≤◌, length};
ghost use Rattle.fields.specs.Split.{parts_at};
ghost use Rattle.scene_text.specs.Cells.{one_more_of, media_parts, count_media_of, media_row, read_media_of, media_cells};
ghost use Rattle.scene_text.specs.Tables.{filled, put_all};
ghost use Rattle.scene_text.specs.Steps.{table, put};

use crate::cells::{Cells, put_value};

// Cells for the media of a ray, and the number that stands for more.
const MEDIA_CELLS: usize = 8;

const MORE_MEDIA: u32 = MEDIA_CELLS as u32 + 1;

// One more, but no more than one past the cells.
#[tactic(auto, unfolding(crate::specs::Cells::one_more_of))]
fn one_more(n: u32) -> u32
    ensures { result ≡ one_more_of n }
{
    if n < MORE_MEDIA { n + 1 } else { n }
}

// Where the first medium starts; past the length where there is none, as behind a last medium, so no Option: the loops end there by themselves.
fn media_start(f: &[u8]) -> usize
    ensures result_value { parts_at 44 f.now result ≡ media_parts f.now }
    ensures upper_bound { result ≤ length f.now + 1 }
{
    if fields::is_byte(f, b'-') {
        return f.len() + 1;
    }
    0
}

// How many numbers are joined by commas from a place on, 9 for more than eight.
fn count_media(f: &[u8], from: usize) -> Option<u32>
    requires { from ≤ length f.now + 1 }
    ensures { result ≡ count_media_of (parts_at 44 f.now from) 0 }
{
    let mut at = from;
    let mut n: u32 = 0;
    // From comma to comma by places, as `put_media` goes: over the parts of `split` its eight turns would ask for one more behind the
    // last part too, and tell it from a part, which is no plainer.
    while at <= f.len() {
        let e = fields::end_at(f, at, b',');
        fields::read_whole(&f[at..e])?;
        n = one_more(n);
        at = e + 1;
    }
    Some(n)
}

// A medium, and where the next one starts.
#[derive(Clone, Copy)]
pub struct Medium {
    pub value: u32,
    pub at: usize,
}

fn next_medium(f: &[u8], at: usize) -> Medium
    requires { at ≤ length f.now + 1 }
    ensures by_index { (n : ℕ) → ◌≡◌ {A = List ℕ} (result.value ∷ media_row n (parts_at 44 f.now result.at)) (media_row (suc n) (parts_at 44 f.now at)) }
    ensures at_in_bounds { result.at ≤ length f.now + 1 }
{
    if f.len() < at {
        return Medium { value: 0, at };
    }
    let e = fields::end_at(f, at, b',');
    Medium {
        value: fields::read_whole(&f[at..e]).unwrap_or(0),
        at: e + 1,
    }
}

// Eight media from a place on, and 0 where there are no more.
fn put_media(f: &[u8], from: usize, w: &mut [u32], nw: usize) -> usize
    requires { from ≤ length f.now + 1 }
    ensures { filled w.new result ≡ put_all w.old nw (media_row media_cells (parts_at 44 f.now from)) }
{
    let mut at = from;
    let mut p = nw;
    for _ in 0..MEDIA_CELLS {
        let m = next_medium(f, at);
        p = put_value(w, p, m.value);
        at = m.at;
    }
    p
}

#[tactic(auto, unfolding(crate::specs::Steps::put, crate::specs::Cells::read_media_of, crate::specs::Cells::media_cell, crate::specs::Tables::put_all))]
pub fn read_media(f: &[u8], d: &mut [f64], nd: usize, w: &mut [u32], nw: usize) -> Cells
    ensures { table result.ok d.new result.nd w.new result.nw
        ≡ put (read_media_of f.now) (table true d.old nd w.old nw) }
{
    let from = media_start(f);
    match count_media(f, from) {
        Some(n) => {
            let p = put_value(w, nw, n);
            Cells {
                ok: true,
                nd,
                nw: put_media(f, from, w, p),
            }
        }
        None => Cells { ok: false, nd, nw },
    }
}
