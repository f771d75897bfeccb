// Up to 8 detectors, by value (document 01, module 7): which one is asked for, where its pixels stand
// among those of all, and the irradiance of a pixel. The maps themselves are lent.
#![tactic(auto)]

mod reading;

ghost use Rattle.std.specs.Prelude.{◌≡◌, ◌≤◌, ◌<◌};
ghost use Rattle.error.specs.Refusals.{as_checked};
ghost use Rattle.detectors.specs.Detectors.{first_pixel_of, all_pixels_of, placed_of, check_count_of, check_each_of, check_detectors_of, find_of, at_of, max_detectors};

use detector::{Detector2D, DetectorNo};
use error::{NonSeqError, Refusal};
pub use reading::irradiance_at;

// Places of a list of detectors.
pub const MAX_DETECTORS: usize = 8;

// An array and a count, as C hosts hand them over.
#[repr(C)]
#[derive(Clone, Copy)]
pub struct Detectors {
    pub list: [Detector2D; MAX_DETECTORS],
    pub count: u32,
}

// A detector of a list, and the place of its first pixel among the pixels of all.
#[derive(Clone, Copy)]
pub struct Placed {
    pub detector: Detector2D,
    pub first: usize,
}

// The pixels of the first n detectors, which is the place of the first pixel of detector n.
#[tactic(auto, unfolding(crate::specs::Detectors::first_pixel_of))]
fn first_pixel(list: &[Detector2D; MAX_DETECTORS], n: usize) -> usize
    requires { n ≤ max_detectors }
    ensures { result ≡ first_pixel_of list.now n }
{
    let mut sum = 0;
    for d in &list[..n] {
        sum += d.pixels();
    }
    sum
}

impl Detectors {
    // The most detectors.
    pub const MAX: u32 = MAX_DETECTORS as u32;

    // 3 for more than 8.
    #[tactic(auto, unfolding(crate::specs::Detectors::check_count_of))]
    pub fn check_count(count: u32) -> Result<(), Refusal>
        ensures { as_checked result ≡ check_count_of count }
    {
        if count > Detectors::MAX {
            return Err(Refusal {
                error: NonSeqError::ListTooLong,
                place: 0,
            });
        }
        Ok(())
    }

    // 5 to 8 and 18 of each in list order; none of a list that is refused by 3.
    #[tactic(auto, unfolding(crate::specs::Detectors::check_each_of))]
    pub fn check_each(self) -> Result<(), Refusal>
        ensures { as_checked result ≡ check_each_of self }
    {
        if self.count <= Detectors::MAX {
            for i in 0..self.count {
                self.list[i as usize].check(i)?;
            }
        }
        Ok(())
    }

    // 3, then 5 to 8 and 18 of each.
    #[tactic(auto, unfolding(crate::specs::Detectors::check_detectors_of))]
    pub fn check(self) -> Result<(), Refusal>
        ensures { as_checked result ≡ check_detectors_of self }
    {
        Detectors::check_count(self.count)?;
        self.check_each()
    }

    // The asked detector: the same checks, then 4 for one that is not there.
    #[tactic(auto, unfolding(crate::specs::Detectors::find_of, crate::specs::Detectors::check_asked))]
    pub fn find(self, asked: DetectorNo) -> Result<Placed, Refusal>
        ensures { as_checked result ≡ find_of self asked }
    {
        self.check()?;
        if asked.0 >= self.count {
            return Err(Refusal {
                error: NonSeqError::NoSuchDetector,
                place: 0,
            });
        }
        Ok(self.placed(asked.0 as usize))
    }

    // Detector d with the place of its first pixel.
    #[tactic(auto, unfolding(crate::specs::Detectors::placed_of))]
    fn placed(self, d: usize) -> Placed
        requires { d < max_detectors }
        ensures { result ≡ placed_of self.list d }
    {
        Placed {
            detector: self.list[d],
            first: first_pixel(&self.list, d),
        }
    }

    // Detector d with the place of its first pixel, whatever the count: for callers that have checked.
    #[tactic(auto, unfolding(crate::specs::Detectors::at_of))]
    pub fn at(self, d: DetectorNo) -> Option<Placed>
        ensures { result ≡ at_of self d }
    {
        if d.0 < Detectors::MAX {
            return Some(self.placed(d.0 as usize));
        }
        None
    }

    // How many pixels all have together; none for a list that is refused by 3.
    #[tactic(auto, unfolding(crate::specs::Detectors::all_pixels_of))]
    pub fn all_pixels(self) -> usize
        ensures { result ≡ all_pixels_of self }
    {
        if self.count <= Detectors::MAX {
            return first_pixel(&self.list, self.count as usize);
        }
        0
    }
}
