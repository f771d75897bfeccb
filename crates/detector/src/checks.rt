// What a detector is refused for (5, 6, 7, 18, 8 in this order), and the constructor.
ghost use Rattle.std.specs.Prelude.{◌≡◌};
ghost use Rattle.error.specs.Refusals.{as_checked};
ghost use Rattle.detector.specs.Checks.{is_size_of, is_pose_of, is_parallel_of, check_pose_of, check_grid_of, check_detector_of, new_detector_of};

use crate::Detector2D;
use error::{NonSeqError, Refusal};
use rays::Vec3;

// Above 0 and finite.
#[tactic(auto, unfolding(crate::specs::Checks::is_size_of))]
fn is_size(x: f64) -> bool
    ensures { result ≡ is_size_of x }
{
    x > 0.0 && doubles::is_finite(x)
}

// Whether all parts are finite, and normal and up have a direction.
#[tactic(auto, unfolding(crate::specs::Checks::is_pose_of))]
fn is_pose(center: Vec3, normal: Vec3, up: Vec3) -> bool
    ensures { result ≡ is_pose_of center normal up }
{
    center.is_finite()
        & normal.is_finite()
        & up.is_finite()
        & normal.has_direction()
        & up.has_direction()
}

// Whether the unit vectors' dot product is beyond 0.9999 in size.
#[tactic(auto, unfolding(crate::specs::Checks::is_parallel_of))]
fn is_parallel(normal: Vec3, up: Vec3) -> bool
    ensures { result ≡ is_parallel_of normal up }
{
    doubles::abs(normal.normalize().dot(up.normalize())) > 0.9999
}

impl Detector2D {
    // 18, then 8, after the grid.
    #[tactic(auto, unfolding(crate::specs::Checks::check_pose_of))]
    fn check_pose(self, place: u32) -> Result<(), Refusal>
        ensures { as_checked result ≡ check_pose_of self place }
    {
        if !is_pose(self.center, self.normal, self.up) {
            return Err(Refusal {
                error: NonSeqError::InvalidDetectorPose,
                place,
            });
        }
        if is_parallel(self.normal, self.up) {
            return Err(Refusal {
                error: NonSeqError::ParallelUp,
                place,
            });
        }
        Ok(())
    }

    // 6 and 7, after the sizes, then the pose.
    #[tactic(auto, unfolding(crate::specs::Checks::check_grid_of))]
    fn check_grid(self, place: u32) -> Result<(), Refusal>
        ensures { as_checked result ≡ check_grid_of self place }
    {
        if self.res_x == 0 || self.res_y == 0 {
            return Err(Refusal {
                error: NonSeqError::ZeroResolution,
                place,
            });
        }
        if self.res_x > Detector2D::MAX_RES || self.res_y > Detector2D::MAX_RES {
            return Err(Refusal {
                error: NonSeqError::ResolutionTooLarge,
                place,
            });
        }
        self.check_pose(place)
    }

    // Whether this is a detector, as the one at a place in a list: 5, 6, 7, 18, 8 in this order.
    #[tactic(auto, unfolding(crate::specs::Checks::check_detector_of))]
    pub fn check(self, place: u32) -> Result<(), Refusal>
        ensures { as_checked result ≡ check_detector_of self place }
    {
        if !is_size(self.width_mm) || !is_size(self.height_mm) {
            return Err(Refusal {
                error: NonSeqError::InvalidDetectorSize,
                place,
            });
        }
        self.check_grid(place)
    }

    // A detector that has caught nothing yet.
    #[tactic(auto, unfolding(crate::specs::Checks::new_detector_of))]
    pub fn new(
        center: Vec3,
        normal: Vec3,
        up: Vec3,
        width_mm: f64,
        height_mm: f64,
        res_x: u32,
        res_y: u32,
    ) -> Result<Detector2D, Refusal>
        ensures { as_checked result ≡ new_detector_of center normal up width_mm height_mm res_x res_y }
    {
        let d = Detector2D {
            center,
            normal,
            up,
            width_mm,
            height_mm,
            res_x,
            res_y,
            total_flux_watts: 0.0,
            total_rays_hit: 0,
        };
        d.check(0)?;
        Ok(d)
    }
}
