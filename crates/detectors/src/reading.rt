// A reading of the flux map.
ghost use Rattle.std.specs.Prelude.{◌≡◌, ◌+◌, ◌*◌, ◌≤◌, length};
ghost use Rattle.error.specs.Refusals.{as_checked};
ghost use Rattle.detectors.specs.Readings.{irradiance_in_of, irradiance_at_of};

use crate::{Detectors, Placed};
use detector::DetectorNo;
use error::{NonSeqError, Refusal};

// The irradiance of pixel (px, py) of a detector whose pixels lie in the map.
#[tactic(auto, unfolding(crate::specs::Readings::irradiance_in_of))]
fn irradiance_in(p: Placed, flux: &[f64], px: u32, py: u32) -> f64
    requires { p.first + p.detector.res_x * p.detector.res_y ≤ length flux.now }
    ensures { result ≡ irradiance_in_of p flux.now px py }
{
    let d = p.detector;
    if px < d.res_x && py < d.res_y {
        let at = p.first + (py as usize * d.res_x as usize + px as usize);
        return d.irradiance(flux[at]);
    }
    0.0
}

// The irradiance of pixel (px, py) of the asked detector, in watts a square metre; 0 outside the
// resolution and where a pixel's area is at most 0. Refused by 3, 5 to 8 and 18, 4 and 9.
#[tactic(auto, unfolding(crate::specs::Readings::irradiance_at_of, crate::specs::Readings::irradiance_from))]
pub fn irradiance_at(
    detectors: Detectors,
    asked: DetectorNo,
    flux: &[f64],
    px: u32,
    py: u32,
) -> Result<f64, Refusal>
    ensures { as_checked result ≡ irradiance_at_of detectors asked flux.now px py }
{
    let p = detectors.find(asked)?;
    if flux.len() != detectors.all_pixels() {
        return Err(Refusal {
            error: NonSeqError::InvalidSliceLength,
            place: 0,
        });
    }
    Ok(irradiance_in(p, flux, px, py))
}
