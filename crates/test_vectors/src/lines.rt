// Whether a stored line is what the functions answer.
ghost use Rattle.std.specs.Prelude.{◌≡◌};
ghost use Rattle.error.specs.Refusals.{as_answer, number_of};
ghost use Rattle.test_vectors.specs.Parts.{part_in};
ghost use Rattle.test_vectors.specs.Lines.{root_line_of, double_line_of, draws_agree_of, draw_line_of, state_line_of, medium_of, is_refusal_of, is_answer_of, index_line_of, pair_agrees_of, one_agrees_of, vector_line_of, matrix_line_of, line_agrees_of};

use crate::parts::{
    are_bits, bits_at, double_at, has_shape, is_bits, is_double, is_given, is_vec, is_whole,
    mat_at, vec_at,
};
use error::NonSeqError;
use material::OpticalMedium;
use rays::{Ray, Vec3};
use source::Rng64;

// What a file's lines say.
#[derive(Clone, Copy, PartialEq, Eq)]
pub enum Kind {
    // x = the root of x
    Root,
    // x = its absolute value, its maximum with 0.0, x clamped to 0.0 and 0.999999, 1 if it is finite,
    // x as usize
    Double,
    // seed = five drawn numbers, then one drawn double
    Draw,
    // state = the next state, and the number drawn with it
    State,
    // a, b, k = dot, cross, sum, difference, a scaled by k, divided by k and negated, its length, a
    // normalized, the point at k of the ray from a along b
    Vector,
    // matrix, v = it times v as a point and as a direction, its transpose times v as a normal
    Matrix,
    // medium, its six coefficients, wavelength = index, or r with the number of the refusal
    Index,
    // shape, its sizes, origin and direction = distance and normal, or -
    Shape,
    // shape, active, its sizes, matrix and inverse, a ray = where it meets the solid, or -
    Solid,
    // detector, origin and direction = distance, place and pixel, or -
    Crossing,
    // a detector's sizes and resolutions, place, flux = pixel, its area, irradiance
    Recording,
}

#[tactic(auto, unfolding(crate::specs::Lines::root_line_of))]
fn root_line(line: &[u8]) -> bool
    ensures { result ≡ root_line_of line.now }
{
    let x = doubles::from_bits(bits_at(line, 0));
    let ok = is_given(line, 3, 1);
    ok && is_double(line, 2, doubles::sqrt(x))
}

#[tactic(auto, unfolding(crate::specs::Lines::double_line_of))]
fn double_line(line: &[u8]) -> bool
    ensures { result ≡ double_line_of line.now }
{
    let x = doubles::from_bits(bits_at(line, 0));
    let ok = is_given(line, 7, 1);
    let a = is_double(line, 2, doubles::abs(x));
    let b = is_double(line, 3, doubles::max_zero(x));
    let c = is_double(line, 4, doubles::clamp(x, 0.0, 0.999999));
    let d = is_whole(line, 5, u32::from(doubles::is_finite(x)));
    let e = is_bits(line, 6, doubles::to_usize(x) as u64);
    ok && a && b && c && d && e
}

// Whether the parts of a line from k on are n drawn numbers and then one drawn double.
fn draws_agree(line: &[u8], rng: Rng64) -> bool
    ensures { result ≡ draws_agree_of line.now 5 2 rng }
{
    let mut g = rng;
    for k in 2..7 {
        let drawn = g.next_u64();
        if !is_bits(line, k, drawn.value) {
            return false;
        }
        g = drawn.rng;
    }
    let last = g.next_f64();
    is_double(line, 7, last.value)
}

#[tactic(auto, unfolding(crate::specs::Lines::draw_line_of))]
fn draw_line(line: &[u8]) -> bool
    ensures { result ≡ draw_line_of line.now }
{
    let ok = is_given(line, 8, 1);
    ok && draws_agree(line, Rng64::new(bits_at(line, 0)))
}

#[tactic(auto, unfolding(crate::specs::Lines::state_line_of))]
fn state_line(line: &[u8]) -> bool
    ensures { result ≡ state_line_of line.now }
{
    let ok = is_given(line, 4, 1);
    let g = Rng64 {
        state: bits_at(line, 0),
    };
    let drawn = g.next_u64();
    let next = drawn.rng;
    ok && is_bits(line, 2, next.state) && is_bits(line, 3, drawn.value)
}

// What a vector line says of a and b.
#[tactic(auto, unfolding(crate::specs::Lines::pair_agrees_of))]
fn pair_agrees(line: &[u8], a: Vec3, b: Vec3) -> bool
    ensures { result ≡ pair_agrees_of line.now a b }
{
    let dot = is_double(line, 8, a.dot(b));
    let cross = is_vec(line, 9, a.cross(b));
    let sum = is_vec(line, 12, a.plus(b));
    let difference = is_vec(line, 15, a.minus(b));
    dot && cross && sum && difference
}

// What it says of a and k, and of a alone.
#[tactic(auto, unfolding(crate::specs::Lines::one_agrees_of))]
fn one_agrees(line: &[u8], a: Vec3, k: f64) -> bool
    ensures { result ≡ one_agrees_of line.now a k }
{
    let scaled = is_vec(line, 18, a.scale(k));
    let divided = is_vec(line, 21, a.divide(k));
    let negated = is_vec(line, 24, a.negate());
    let norm = is_double(line, 27, a.norm());
    let unit = is_vec(line, 28, a.normalize());
    scaled && divided && negated && norm && unit
}

#[tactic(auto, unfolding(crate::specs::Lines::vector_line_of))]
fn vector_line(line: &[u8]) -> bool
    ensures { result ≡ vector_line_of line.now }
{
    let a = vec_at(line, 0);
    let b = vec_at(line, 3);
    let k = double_at(line, 6);
    let ray = Ray {
        origin: a,
        direction: b,
        wavelength_nm: 0.0,
        energy: 0.0,
    };
    let values = pair_agrees(line, a, b) && one_agrees(line, a, k);
    is_given(line, 34, 7) && values && is_vec(line, 31, ray.at(k))
}

#[tactic(auto, unfolding(crate::specs::Lines::matrix_line_of))]
fn matrix_line(line: &[u8]) -> bool
    ensures { result ≡ matrix_line_of line.now }
{
    let m = mat_at(line, 0);
    let v = vec_at(line, 16);
    let p = is_vec(line, 20, m.transform_point(v));
    let d = is_vec(line, 23, m.transform_direction(v));
    let n = is_vec(line, 26, m.transform_normal(v));
    is_given(line, 29, 19) && p && d && n
}

// The medium of an index line, by its number and coefficients.
#[tactic(auto, unfolding(crate::specs::Lines::medium_of))]
fn medium(number: u32, line: &[u8]) -> Option<OpticalMedium>
    ensures { result ≡ medium_of number line.now }
{
    OpticalMedium::numbered(
        number,
        double_at(line, 1),
        double_at(line, 2),
        double_at(line, 3),
        double_at(line, 4),
        double_at(line, 5),
        double_at(line, 6),
    )
}

// Whether a part is r and the number of a refusal.
#[tactic(auto, using(crate::proofs::Loops::all_but_first), unfolding(crate::specs::Lines::is_refusal_of))]
fn is_refusal(part: &[u8], e: NonSeqError) -> bool
    ensures { result ≡ is_refusal_of part.now (number_of e) }
{
    0 < part.len() && part[0] == b'r' && fields::read_whole(&part[1..]) == Some(e.number())
}

// Whether part 9 of a line is what an index answers.
#[tactic(auto, unfolding(crate::specs::Lines::is_answer_of))]
fn is_answer(line: &[u8], r: Result<f64, NonSeqError>) -> bool
    ensures { result ≡ is_answer_of (part_in line.now 9) (as_answer r) }
{
    match r {
        Ok(n) => is_double(line, 9, n),
        Err(e) => is_refusal(fields::part(line, b' ', 9), e),
    }
}

#[tactic(auto, unfolding(crate::specs::Lines::index_agrees, crate::specs::Lines::index_line_of, crate::specs::Lines::index_of_medium))]
fn index_line(line: &[u8]) -> bool
    ensures { result ≡ index_line_of line.now }
{
    let Some(number) = fields::read_whole(fields::part(line, b' ', 0)) else {
        return false;
    };
    let Some(m) = medium(number, line) else {
        return false;
    };
    let ok = has_shape(line, 10, 8) && are_bits(line, 1, 8);
    ok && is_answer(line, m.refractive_index(double_at(line, 7)))
}

#[tactic(auto, unfolding(crate::specs::Lines::line_agrees_of))]
pub fn line_agrees(kind: Kind, line: &[u8]) -> bool
    ensures { result ≡ line_agrees_of kind line.now }
{
    match kind {
        Kind::Root => root_line(line),
        Kind::Double => double_line(line),
        Kind::Draw => draw_line(line),
        Kind::State => state_line(line),
        Kind::Vector => vector_line(line),
        Kind::Matrix => matrix_line(line),
        Kind::Index => index_line(line),
        Kind::Shape => crate::solid_lines::shape_line(line),
        Kind::Solid => crate::solid_lines::solid_line(line),
        Kind::Crossing => crate::detector_lines::crossing_line(line),
        Kind::Recording => crate::detector_lines::recording_line(line),
    }
}
