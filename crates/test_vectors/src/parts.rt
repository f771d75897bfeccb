// The parts of a stored line of vectors, read as numbers and compared.
ghost use Rattle.std.specs.Prelude.{◌≡◌};
ghost use Rattle.fields.specs.Number.{read_bits_of};
ghost use Rattle.test_vectors.specs.Parts.{part_in, has_shape_of, is_read, are_bits_of, bits_at_of, double_at_of, is_double_of, is_given_of, vec_at_of, is_vec_of, row_at_of, mat_at_of, is_dash_of, is_bits_of, is_whole_of};

use rays::{Mat4, Row, Vec3};

// Part k of a line as bits; 0 where it is malformed.
#[tactic(auto, unfolding(crate::specs::Parts::bits_at_of))]
pub fn bits_at(line: &[u8], k: usize) -> u64
    ensures { result ≡ bits_at_of line.now k }
{
    fields::read_bits(fields::part(line, b' ', k)).unwrap_or(0)
}

// Whether part k of a line is written as the bits v.
pub fn is_bits(line: &[u8], k: usize, v: u64) -> bool
    ensures { result ≡ is_bits_of line.now k v }
{
    fields::read_bits(fields::part(line, b' ', k)) == Some(v)
}

// Whether part k of a line is written as a double.
#[tactic(auto, unfolding(crate::specs::Parts::is_double_of))]
pub fn is_double(line: &[u8], k: usize, x: f64) -> bool
    ensures { result ≡ is_double_of (part_in line.now k) x }
{
    is_bits(line, k, doubles::to_bits(x))
}

// Whether part k of a line is the decimal n.
pub fn is_whole(line: &[u8], k: usize, n: u32) -> bool
    ensures { result ≡ is_whole_of line.now k n }
{
    fields::read_whole(fields::part(line, b' ', k)) == Some(n)
}

// Whether part k of a line is bits at all.
fn is_any_bits(line: &[u8], k: usize) -> bool
    ensures { result ≡ is_read (read_bits_of (part_in line.now k)) }
{
    fields::read_bits(fields::part(line, b' ', k)).is_some()
}

// Whether the parts of a line from `from` on and before `to` are all bits.
pub fn are_bits(line: &[u8], from: usize, to: usize) -> bool
    ensures { result ≡ are_bits_of line.now from to }
{
    for k in from..to {
        if !is_any_bits(line, k) {
            return false;
        }
    }
    true
}

// Whether a line has n parts, of which part k is "=".
#[tactic(auto, unfolding(crate::specs::Parts::has_shape_of))]
pub fn has_shape(line: &[u8], n: usize, k: usize) -> bool
    ensures { result ≡ has_shape_of line.now n k }
{
    if fields::count_parts(line, b' ') == n {
        return fields::is_byte(fields::part(line, b' ', k), b'=');
    }
    false
}

// The same, and the parts before it are bits.
#[tactic(auto, unfolding(crate::specs::Parts::is_given_of))]
pub fn is_given(line: &[u8], n: usize, k: usize) -> bool
    ensures { result ≡ is_given_of line.now n k }
{
    has_shape(line, n, k) && are_bits(line, 0, k)
}

// Part k as a double.
#[tactic(auto, unfolding(crate::specs::Parts::double_at_of))]
pub fn double_at(line: &[u8], k: usize) -> f64
    ensures { result ≡ double_at_of line.now k }
{
    doubles::from_bits(bits_at(line, k))
}

// The three parts from k on as a vector.
#[tactic(auto, unfolding(crate::specs::Parts::vec_at_of))]
pub fn vec_at(line: &[u8], k: usize) -> Vec3
    ensures { result ≡ vec_at_of line.now k }
{
    Vec3 {
        x: double_at(line, k),
        y: double_at(line, k.wrapping_add(1)),
        z: double_at(line, k.wrapping_add(2)),
    }
}

// Whether the three parts from k on are written as a vector.
#[tactic(auto, unfolding(crate::specs::Parts::is_vec_of))]
pub fn is_vec(line: &[u8], k: usize, v: Vec3) -> bool
    ensures { result ≡ is_vec_of line.now k v }
{
    let y = is_double(line, k.wrapping_add(1), v.y);
    let z = is_double(line, k.wrapping_add(2), v.z);
    is_double(line, k, v.x) && y && z
}

// The four parts from k on as a row of a matrix.
#[tactic(auto, unfolding(crate::specs::Parts::row_at_of))]
fn row_at(line: &[u8], k: usize) -> Row
    ensures { result ≡ row_at_of line.now k }
{
    Row {
        a: double_at(line, k),
        b: double_at(line, k.wrapping_add(1)),
        c: double_at(line, k.wrapping_add(2)),
        d: double_at(line, k.wrapping_add(3)),
    }
}

// The sixteen parts from k on as a matrix.
#[tactic(auto, unfolding(crate::specs::Parts::mat_at_of))]
pub fn mat_at(line: &[u8], k: usize) -> Mat4
    ensures { result ≡ mat_at_of line.now k }
{
    Mat4 {
        r0: row_at(line, k),
        r1: row_at(line, k.wrapping_add(4)),
        r2: row_at(line, k.wrapping_add(8)),
        r3: row_at(line, k.wrapping_add(12)),
    }
}

// Whether part k of a line is "-".
#[tactic(auto, unfolding(crate::specs::Parts::is_dash_of))]
pub fn is_dash(line: &[u8], k: usize) -> bool
    ensures { result ≡ is_dash_of line.now k }
{
    fields::is_byte(fields::part(line, b' ', k), b'-')
}
