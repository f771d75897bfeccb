// The solids of a scene as two lent lists of numbers, as they stand in the scene text.
ghost use Rattle.std.specs.Prelude.{◌≡◌, ◌+◌, ◌*◌, ◌≤◌, length};
ghost use Rattle.error.specs.Refusals.{as_checked};
ghost use Rattle.scene.specs.Closest.{approach_at_of};
ghost use Rattle.scene.specs.Solids.{row_at_of, mat_at_of, shape_in_of, read_object_of, objects_in, finish_at_of, medium_at_of, tags_fit_of, check_tags_of, check_solids_of, solid_doubles, solid_wholes};

use crate::object::Approach;
use crate::{NonSeqObject, SOLID_DOUBLES, SOLID_WHOLES, SolidNo, object};
use error::{NonSeqError, Refusal};
use geometry::{Contact, PrimitiveGeometry, Transform3D};
use material::{OpticalMedium, SurfaceFinish};
use rays::{Mat4, Ray, Row};

// The solids of a scene, lent. Of each 42 doubles: sizes p, q, r, reflectance rho, coefficients a to f, matrix and
// inverse row by row. Of each 4 whole numbers: shape, active, finish, medium.
#[derive(Clone, Copy)]
pub struct Solids<'a> {
    pub values: &'a [f64],
    pub tags: &'a [u32],
    pub count: u32,
}

// Where the matrix and the inverse start among a solid's doubles.
const MATRIX_AT: usize = 10;

const INVERSE_AT: usize = 26;

#[tactic(auto, unfolding(crate::specs::Solids::row_at_of))]
fn row_at(solid_values: &[f64], i: usize) -> Row
    requires { i + 4 ≤ length solid_values.now }
    ensures { result ≡ row_at_of solid_values.now i }
{
    Row {
        a: solid_values[i],
        b: solid_values[i + 1],
        c: solid_values[i + 2],
        d: solid_values[i + 3],
    }
}

#[tactic(auto, unfolding(crate::specs::Solids::mat_at_of))]
fn mat_at(solid_values: &[f64], i: usize) -> Mat4
    requires { i + 16 ≤ length solid_values.now }
    ensures { result ≡ mat_at_of solid_values.now i }
{
    Mat4 {
        r0: row_at(solid_values, i),
        r1: row_at(solid_values, i + 4),
        r2: row_at(solid_values, i + 8),
        r3: row_at(solid_values, i + 12),
    }
}

// Whether a solid's four whole numbers are in range.
#[tactic(auto, unfolding(crate::specs::Solids::tags_fit_of))]
fn tags_fit(shape: u32, active: u32, finish: u32, medium: u32) -> bool
    ensures { result ≡ tags_fit_of shape active finish medium }
{
    if shape <= PrimitiveGeometry::LAST {
        if active <= 1 {
            if finish <= SurfaceFinish::LAST {
                return medium <= OpticalMedium::LAST;
            }
        }
    }
    false
}

impl Solids<'_> {
    // The shape of solid i of lists that hold it, if there is one of its number.
    #[tactic(auto, unfolding(crate::specs::Solids::shape_in_of))]
    fn shape_in(self, i: u32) -> Option<PrimitiveGeometry>
        requires { (i * solid_doubles + solid_doubles ≤ length self.values.now) × (i * solid_wholes + solid_wholes ≤ length self.tags.now) }
        ensures { result ≡ shape_in_of self.entry.values.now self.entry.tags.now i }
    {
        let a = i as usize * SOLID_DOUBLES;
        PrimitiveGeometry::numbered(
            self.tags[i as usize * SOLID_WHOLES],
            self.values[a],
            self.values[a + 1],
            self.values[a + 2],
        )
    }

    // Solid i of lists that hold it, if there is a shape of its number.
    #[tactic(auto, unfolding(crate::specs::Solids::object_with, crate::specs::Solids::read_object_of, crate::specs::Solids::solid_with))]
    fn read_object(self, i: u32) -> Option<NonSeqObject>
        requires { (i * solid_doubles + solid_doubles ≤ length self.values.now) × (i * solid_wholes + solid_wholes ≤ length self.tags.now) }
        ensures { result ≡ read_object_of self.entry.values.now self.entry.tags.now i }
    {
        let a = i as usize * SOLID_DOUBLES;
        let b = i as usize * SOLID_WHOLES;
        let geometry = self.shape_in(i)?;
        let matrix = mat_at(self.values, a + MATRIX_AT);
        let inverse = mat_at(self.values, a + INVERSE_AT);
        Some(NonSeqObject {
            id: SolidNo(i),
            geometry,
            transform: Transform3D { matrix, inverse },
            is_active: self.tags[b + 1] == 1,
        })
    }

    // Solid i, if the lists hold it and there is a shape of its number.
    #[tactic(auto, unfolding(crate::specs::Solids::holds, crate::specs::Solids::object_at_of))]
    pub fn object_at(self, i: u32) -> Option<NonSeqObject>
        ensures { result ≡ objects_in self.entry i }
    {
        if i as usize * SOLID_DOUBLES + SOLID_DOUBLES <= self.values.len() {
            if i as usize * SOLID_WHOLES + SOLID_WHOLES <= self.tags.len() {
                return self.read_object(i);
            }
        }
        None
    }

    // Where a ray meets solid i of lists that hold it. The solid's matrix is read only where its shape is met.
    #[tactic(auto, using(crate::proofs::Parts::approach_met, crate::proofs::Parts::approach_missed, crate::proofs::Parts::none_inactive), unfolding(crate::specs::Closest::approach_at_of, crate::specs::Solids::object_with, crate::specs::Solids::read_object_of, crate::specs::Solids::solid_with))]
    fn approach_in(self, i: u32, ray: Ray) -> Option<Approach>
        requires { (i * solid_doubles + solid_doubles ≤ length self.values.now) × (i * solid_wholes + solid_wholes ≤ length self.tags.now) }
        ensures { result ≡ approach_at_of (read_object_of self.entry.values.now self.entry.tags.now i) ray }
    {
        let a = i as usize * SOLID_DOUBLES;
        let b = i as usize * SOLID_WHOLES;
        if self.tags[b + 1] == 1 {
            let inverse = mat_at(self.values, a + INVERSE_AT);
            let geometry = self.shape_in(i)?;
            let Contact { point, hit } = geometry.meet(inverse, ray)?;
            return object::reached(mat_at(self.values, a + MATRIX_AT), ray, point, hit);
        }
        None
    }

    // Where a ray meets solid i, if there is such a solid.
    #[tactic(auto, unfolding(crate::specs::Closest::approach_at_of, crate::specs::Solids::holds, crate::specs::Solids::object_at_of))]
    pub(crate) fn approach_at(self, i: u32, ray: Ray) -> Option<Approach>
        ensures { result ≡ approach_at_of (objects_in self.entry i) ray }
    {
        if i as usize * SOLID_DOUBLES + SOLID_DOUBLES <= self.values.len() {
            if i as usize * SOLID_WHOLES + SOLID_WHOLES <= self.tags.len() {
                return self.approach_in(i, ray);
            }
        }
        None
    }

    // The finish of a solid; clear where the lists hold none.
    #[tactic(auto, unfolding(crate::specs::Solids::finish_at_of, crate::specs::Solids::holds))]
    pub fn finish_at(self, solid: SolidNo) -> SurfaceFinish
        ensures { result ≡ finish_at_of self.entry.values.now self.entry.tags.now solid }
    {
        let i = solid.0;
        let a = i as usize * SOLID_DOUBLES;
        let b = i as usize * SOLID_WHOLES;
        if a + SOLID_DOUBLES <= self.values.len() {
            if b + SOLID_WHOLES <= self.tags.len() {
                return SurfaceFinish::numbered(self.tags[b + 2], self.values[a + 3]).unwrap_or(
                    SurfaceFinish::Specular,
                );
            }
        }
        SurfaceFinish::Specular
    }

    // The medium of a solid; air where the lists hold none.
    #[tactic(auto, unfolding(crate::specs::Solids::holds, crate::specs::Solids::medium_at_of))]
    pub fn medium_at(self, solid: SolidNo) -> OpticalMedium
        ensures { result ≡ medium_at_of self.entry.values.now self.entry.tags.now solid }
    {
        let i = solid.0;
        let a = i as usize * SOLID_DOUBLES;
        let b = i as usize * SOLID_WHOLES;
        if a + SOLID_DOUBLES <= self.values.len() {
            if b + SOLID_WHOLES <= self.tags.len() {
                return OpticalMedium::numbered(
                    self.tags[b + 3],
                    self.values[a + 4],
                    self.values[a + 5],
                    self.values[a + 6],
                    self.values[a + 7],
                    self.values[a + 8],
                    self.values[a + 9],
                )
                .unwrap_or(OpticalMedium::Air);
            }
        }
        OpticalMedium::Air
    }

    // The first solid whose whole numbers are not in range is refused (17).
    fn check_tags(self) -> Result<(), Refusal>
        requires { self.count * solid_wholes ≤ length self.tags.now }
        ensures { as_checked result ≡ check_tags_of self.entry.tags.now self.entry.count 0 }
    {
        for i in 0..self.count {
            let b = i as usize * SOLID_WHOLES;
            let fit = tags_fit(
                self.tags[b],
                self.tags[b + 1],
                self.tags[b + 2],
                self.tags[b + 3],
            );
            if !fit {
                return Err(Refusal {
                    error: NonSeqError::InvalidSceneText,
                    place: i,
                });
            }
        }
        Ok(())
    }

    // Whether the lists are those of so many solids, each with whole numbers in range (17).
    #[tactic(auto, unfolding(crate::specs::Solids::check_solids_of))]
    pub fn check(self) -> Result<(), Refusal>
        ensures { as_checked result ≡ check_solids_of self.entry.values.now self.entry.tags.now self.entry.count }
    {
        if self.values.len() == self.count as usize * SOLID_DOUBLES {
            if self.tags.len() == self.count as usize * SOLID_WHOLES {
                return self.check_tags();
            }
        }
        Err(Refusal {
            error: NonSeqError::InvalidSceneText,
            place: 0,
        })
    }
}
