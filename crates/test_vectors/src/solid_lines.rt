// Whether a stored line of shapes or solids is what the functions answer.
ghost use Rattle.std.specs.Prelude.{◌≡◌};
ghost use Rattle.test_vectors.specs.SolidLines.{shape_in_of, is_local_hit_of, shape_line_of, object_in_of, ray_in_of, is_hit_at_of, is_hit_of, solid_line_of};

use crate::parts::{
    are_bits, double_at, has_shape, is_dash, is_double, is_vec, is_whole, mat_at, vec_at,
};
use geometry::{LocalHit, PrimitiveGeometry, Transform3D};
use rays::Ray;
use scene::{NonSeqHit, NonSeqObject, SolidNo};

// The shape of a number with the three sizes from part k on.
#[tactic(auto, unfolding(crate::specs::SolidLines::shape_in_of))]
fn shape_in(number: u32, line: &[u8], k: usize) -> Option<PrimitiveGeometry>
    ensures { result ≡ shape_in_of number line.now k }
{
    let sizes = vec_at(line, k);
    PrimitiveGeometry::numbered(number, sizes.x, sizes.y, sizes.z)
}

// Whether the parts from 10 on are what a shape answers.
#[tactic(auto, unfolding(crate::specs::SolidLines::is_local_hit_of))]
fn is_local_hit(line: &[u8], h: Option<LocalHit>) -> bool
    ensures { result ≡ is_local_hit_of line.now h }
{
    match h {
        Some(m) => {
            let values = is_double(line, 11, m.t) && is_vec(line, 12, m.normal);
            has_shape(line, 15, 10) && values
        }
        None => has_shape(line, 12, 10) && is_dash(line, 11),
    }
}

#[tactic(auto, unfolding(crate::specs::SolidLines::shape_agrees, crate::specs::SolidLines::shape_line_of, crate::specs::SolidLines::shape_numbered))]
pub fn shape_line(line: &[u8]) -> bool
    ensures { result ≡ shape_line_of line.now }
{
    let Some(number) = fields::read_whole(fields::part(line, b' ', 0)) else {
        return false;
    };
    let Some(geometry) = shape_in(number, line, 1) else {
        return false;
    };
    let ray = Ray {
        origin: vec_at(line, 4),
        direction: vec_at(line, 7),
        wavelength_nm: 0.0,
        energy: 0.0,
    };
    let h = geometry.intersect_local(ray);
    are_bits(line, 1, 10) && is_local_hit(line, h)
}

// The solid of a line with its shape: active, matrix, inverse.
#[tactic(auto, unfolding(crate::specs::SolidLines::object_in_of))]
fn object_in(geometry: PrimitiveGeometry, line: &[u8]) -> NonSeqObject
    ensures { result ≡ object_in_of geometry line.now }
{
    let matrix = mat_at(line, 5);
    let inverse = mat_at(line, 21);
    NonSeqObject {
        id: SolidNo(0),
        geometry,
        transform: Transform3D { matrix, inverse },
        is_active: is_whole(line, 1, 1),
    }
}

#[tactic(auto, unfolding(crate::specs::SolidLines::ray_in_of))]
fn ray_in(line: &[u8]) -> Ray
    ensures { result ≡ ray_in_of line.now }
{
    Ray {
        origin: vec_at(line, 37),
        direction: vec_at(line, 40),
        wavelength_nm: double_at(line, 43),
        energy: double_at(line, 44),
    }
}

#[tactic(auto, unfolding(crate::specs::SolidLines::is_hit_at_of))]
fn is_hit_at(line: &[u8], h: NonSeqHit) -> bool
    ensures { result ≡ is_hit_at_of line.now h }
{
    let t = is_double(line, 46, h.t);
    let point = is_vec(line, 47, h.point);
    let normal = is_vec(line, 50, h.normal);
    let geometric = is_vec(line, 53, h.geometric_normal);
    let entering = is_whole(line, 56, u32::from(h.entering));
    t && point && normal && geometric && entering
}

// Whether the parts from 45 on are what a solid answers.
#[tactic(auto, unfolding(crate::specs::SolidLines::is_hit_of))]
fn is_hit(line: &[u8], h: Option<NonSeqHit>) -> bool
    ensures { result ≡ is_hit_of line.now h }
{
    match h {
        Some(m) => has_shape(line, 57, 45) && is_hit_at(line, m),
        None => has_shape(line, 47, 45) && is_dash(line, 46),
    }
}

#[tactic(auto, unfolding(crate::specs::SolidLines::solid_agrees, crate::specs::SolidLines::solid_line_of, crate::specs::SolidLines::solid_numbered))]
pub fn solid_line(line: &[u8]) -> bool
    ensures { result ≡ solid_line_of line.now }
{
    let Some(number) = fields::read_whole(fields::part(line, b' ', 0)) else {
        return false;
    };
    let Some(geometry) = shape_in(number, line, 2) else {
        return false;
    };
    let object = object_in(geometry, line);
    let flag = is_whole(line, 1, u32::from(object.is_active));
    let ok = flag && are_bits(line, 2, 45);
    ok && is_hit(line, object.intersect(ray_in(line)))
}
