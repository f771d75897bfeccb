// Solids in the world (document 01, module 6), after scene.rs: where a ray meets one, and the nearest
// of a list.
#![tactic(auto)]

mod closest;
mod object;
mod solids;

use geometry::{PrimitiveGeometry, Transform3D};
use rays::Vec3;
pub use solids::Solids;

// Doubles and whole numbers of each solid in the two lists of solids.
pub const SOLID_DOUBLES: usize = 42;

pub const SOLID_WHOLES: usize = 4;

// The most solids (else 3).
pub const MAX_SOLIDS: u32 = 32;

// The number of a solid: its place in the list, from 0.
#[repr(C)]
#[derive(Clone, Copy)]
pub struct SolidNo(pub u32);

// What a ray can meet of a solid.
#[derive(Clone, Copy)]
pub struct NonSeqObject {
    pub id: SolidNo,
    pub geometry: PrimitiveGeometry,
    pub transform: Transform3D,
    pub is_active: bool,
}

// Where a ray meets a solid, in the world.
#[derive(Clone, Copy)]
pub struct NonSeqHit {
    pub t: f64,
    pub point: Vec3,
    // the unit normal on the side that the ray comes from
    pub normal: Vec3,
    // the outward unit normal
    pub geometric_normal: Vec3,
    pub object_id: SolidNo,
    // whether the ray comes from outside
    pub entering: bool,
}
