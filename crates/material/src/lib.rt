// Media and finishes (document 01, module 4), after material.rs.
#![tactic(auto)]

ghost use Rattle.std.specs.Prelude.{◌≡◌};
ghost use Rattle.error.specs.Refusals.{as_answer};
ghost use Rattle.material.specs.Media.{numbered_finish_of, numbered_medium_of, square_um_of, sellmeier_term_of, sellmeier_of, schott_of, constant_of, root_of_square_of, index_at_of, refractive_index_of};

use error::NonSeqError;

// A medium's rule for its refractive index.
#[derive(Clone, Copy)]
pub enum OpticalMedium {
    Air,
    Constant {
        n: f64,
    },
    Sellmeier1 {
        b1: f64,
        c1: f64,
        b2: f64,
        c2: f64,
        b3: f64,
        c3: f64,
    },
    Schott {
        a0: f64,
        a1: f64,
        a2: f64,
        a3: f64,
        a4: f64,
        a5: f64,
    },
}

// What happens to light at a solid's surface.
#[derive(Clone, Copy)]
pub enum SurfaceFinish {
    Specular,
    Mirror { reflectance: f64 },
    Absorber,
}

// The square of the wavelength in micrometres.
#[tactic(auto, unfolding(crate::specs::Media::square_um_of))]
fn square_um(wavelength: f64) -> f64
    ensures { result ≡ square_um_of wavelength }
{
    let um = wavelength * 1e-3;
    um * um
}

// One term of Sellmeier's sum.
#[tactic(auto, unfolding(crate::specs::Media::sellmeier_term_of))]
fn sellmeier_term(l2: f64, b: f64, c: f64) -> f64
    ensures { result ≡ sellmeier_term_of l2 b c }
{
    (b * l2) / (l2 - c)
}

// The squared index by Sellmeier's equation.
#[tactic(auto, unfolding(crate::specs::Media::sellmeier_of))]
fn sellmeier(l2: f64, b1: f64, c1: f64, b2: f64, c2: f64, b3: f64, c3: f64) -> f64
    ensures { result ≡ sellmeier_of l2 b1 c1 b2 c2 b3 c3 }
{
    let term1 = sellmeier_term(l2, b1, c1);
    let term2 = sellmeier_term(l2, b2, c2);
    let term3 = sellmeier_term(l2, b3, c3);
    1.0 + term1 + term2 + term3
}

// The squared index by Schott's polynomial.
#[tactic(auto, unfolding(crate::specs::Media::schott_of))]
fn schott(l2: f64, a0: f64, a1: f64, a2: f64, a3: f64, a4: f64, a5: f64) -> f64
    ensures { result ≡ schott_of l2 a0 a1 a2 a3 a4 a5 }
{
    let inv2 = 1.0 / l2;
    let inv4 = inv2 * inv2;
    let inv6 = inv4 * inv2;
    let inv8 = inv6 * inv2;
    a0 + a1 * l2 + a2 * inv2 + a3 * inv4 + a4 * inv6 + a5 * inv8
}

// An index given as a constant: refused below 1 or not finite.
#[tactic(auto, unfolding(crate::specs::Media::constant_of))]
fn constant(n: f64) -> Result<f64, NonSeqError>
    ensures { as_answer result ≡ constant_of n }
{
    if n < 1.0 {
        return Err(NonSeqError::InvalidIndex);
    }
    if doubles::is_finite(n) {
        return Ok(n);
    }
    Err(NonSeqError::InvalidIndex)
}

// The root of a squared index: refused at most 0 or not finite.
#[tactic(auto, unfolding(crate::specs::Media::root_of_square_of))]
fn root_of_square(n2: f64) -> Result<f64, NonSeqError>
    ensures { as_answer result ≡ root_of_square_of n2 }
{
    if n2 <= 0.0 {
        return Err(NonSeqError::InvalidIndex);
    }
    if doubles::is_finite(n2) {
        return Ok(doubles::root_elsewhere(n2));
    }
    Err(NonSeqError::InvalidIndex)
}

impl SurfaceFinish {
    // The largest number of a finish.
    pub const LAST: u32 = 2;

    // The finish of document 01's number, if there is one.
    #[tactic(auto, unfolding(crate::specs::Media::numbered_finish_of))]
    pub fn numbered(number: u32, rho: f64) -> Option<SurfaceFinish>
        ensures { result ≡ numbered_finish_of number rho }
    {
        match number {
            0 => Some(SurfaceFinish::Specular),
            1 => Some(SurfaceFinish::Mirror { reflectance: rho }),
            2 => Some(SurfaceFinish::Absorber),
            _ => None,
        }
    }
}

impl OpticalMedium {
    // The largest number of a medium.
    pub const LAST: u32 = 3;

    // The medium of document 01's number, if there is one, with as many of the coefficients as it takes.
    #[tactic(auto, unfolding(crate::specs::Media::numbered_medium_of))]
    pub fn numbered(
        number: u32,
        a: f64,
        b: f64,
        c: f64,
        d: f64,
        e: f64,
        f: f64,
    ) -> Option<OpticalMedium>
        ensures { result ≡ numbered_medium_of number a b c d e f }
    {
        match number {
            0 => Some(OpticalMedium::Air),
            1 => Some(OpticalMedium::Constant { n: a }),
            2 => Some(OpticalMedium::Sellmeier1 {
                b1: a,
                c1: b,
                b2: c,
                c2: d,
                b3: e,
                c3: f,
            }),
            3 => Some(OpticalMedium::Schott {
                a0: a,
                a1: b,
                a2: c,
                a3: d,
                a4: e,
                a5: f,
            }),
            _ => None,
        }
    }

    // The refractive index at a wavelength in nanometres. A wavelength at most 0 or not finite is
    // refused first (14), then an index outside the medium's rule (15).
    #[tactic(auto, unfolding(crate::specs::Media::refractive_index_of))]
    pub fn refractive_index(self, wavelength: f64) -> Result<f64, NonSeqError>
        ensures { as_answer result ≡ refractive_index_of self wavelength }
    {
        if wavelength <= 0.0 {
            return Err(NonSeqError::InvalidWavelength);
        }
        if doubles::is_finite(wavelength) {
            return self.index_at(wavelength);
        }
        Err(NonSeqError::InvalidWavelength)
    }

    // The same at a wavelength that is not refused.
    #[tactic(auto, unfolding(crate::specs::Media::index_at_of))]
    fn index_at(self, wavelength: f64) -> Result<f64, NonSeqError>
        ensures { as_answer result ≡ index_at_of self wavelength }
    {
        match self {
            OpticalMedium::Air => Ok(1.0),
            OpticalMedium::Constant { n } => constant(n),
            OpticalMedium::Sellmeier1 {
                b1,
                c1,
                b2,
                c2,
                b3,
                c3,
            } => { root_of_square(sellmeier(square_um(wavelength), b1, c1, b2, c2, b3, c3)) }
            OpticalMedium::Schott {
                a0,
                a1,
                a2,
                a3,
                a4,
                a5,
            } => { root_of_square(schott(square_um(wavelength), a0, a1, a2, a3, a4, a5)) }
        }
    }
}
