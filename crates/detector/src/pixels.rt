// The pixels of a detector: how many, which one a point lies in, how large one is.
ghost use Rattle.std.specs.Prelude.{◌≡◌, ◌*◌, ◌≤◌};
ghost use Rattle.error.specs.Refusals.{as_checked};
ghost use Rattle.detector.specs.Pixels.{index_along_of, pixel_at_of, pixels_of, area_of, pixel_area_m2_of, irradiance_of};

use crate::Detector2D;
use error::Refusal;

// Which of n equal steps along a size a place lies in, counted from the negative end. What lies outside
// goes to the first or last step, NaN to the first.
#[tactic(auto, unfolding(crate::specs::Pixels::index_along_of))]
pub fn index_along(local: f64, size: f64, n: u32) -> usize
    ensures { result ≡ index_along_of local size n }
{
    let u = doubles::clamp((local + size * 0.5) / size, 0.0, 0.999999);
    doubles::to_usize(u * n as f64)
}

impl Detector2D {
    // How many pixels; none for a resolution that is refused (7).
    #[tactic(auto, unfolding(crate::specs::Pixels::pixels_of))]
    pub fn pixels(self) -> usize
        ensures { result ≡ pixels_of self }
    {
        if self.res_x <= Detector2D::MAX_RES && self.res_y <= Detector2D::MAX_RES {
            self.res_x as usize * self.res_y as usize
        } else {
            0
        }
    }

    // The place of a point's pixel, row by row.
    pub fn pixel_at(self, local_x: f64, local_y: f64) -> usize
        ensures { (result ≡ pixel_at_of self local_x local_y) × (result ≤ 4294967295 * 4294967296) }
    {
        let px = index_along(local_x, self.width_mm, self.res_x);
        let py = index_along(local_y, self.height_mm, self.res_y);
        py * self.res_x as usize + px
    }

    // The area of a pixel of any record.
    #[tactic(auto, unfolding(crate::specs::Pixels::area_of))]
    fn area(self) -> f64
        ensures { result ≡ area_of self }
    {
        let pixel_w = self.width_mm * 1e-3 / self.res_x as f64;
        let pixel_h = self.height_mm * 1e-3 / self.res_y as f64;
        pixel_w * pixel_h
    }

    // The area of a pixel in square metres. The detector is refused by 5 to 8 and 18.
    #[tactic(auto, unfolding(crate::specs::Pixels::pixel_area_m2_of))]
    pub fn pixel_area_m2(self) -> Result<f64, Refusal>
        ensures { as_checked result ≡ pixel_area_m2_of self }
    {
        self.check(0)?;
        Ok(self.area())
    }

    // The irradiance of a pixel that has caught a flux, in watts a square metre; 0 where the area is at
    // most 0.
    #[tactic(auto, unfolding(crate::specs::Pixels::irradiance_of))]
    pub fn irradiance(self, flux: f64) -> f64
        ensures { result ≡ irradiance_of self flux }
    {
        let area = self.area();
        if area <= 0.0 {
            return 0.0;
        }
        flux / area
    }
}
