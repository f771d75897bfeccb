// A detector's map under a filter (document 01, "Maps and lists") in two calls: `refilter` fills the work map
// and answers total and count, `filtered_pixel_flux` hands back the part of the map. Both make all checks.
ghost use Rattle.std.specs.Prelude.{◌≡◌, ◌+◌, ◌≤◌, length};
ghost use Rattle.error.specs.Refusals.{as_checked};
ghost use Rattle.detector.specs.Pixels.{pixels_of};
ghost use Rattle.filter.specs.Handed.{check_filter_of, as_handed, refilter_of, stored_part_of, filtered_pixel_flux_of, doubles_on, lies_placed};

use crate::RayPathFilter;
use crate::sifting::{Tally, refill};
use detector::DetectorNo;
use detectors::{Detectors, Placed};
use error::{NonSeqError, Refusal};
use memory::is_hit_list;

// What a memory holds for the filters: the detectors, the stored map, the hit list. The part that is handed back is of
// the stored map or the work map (`'a`), so the hit list (`'h`) may end before it.
#[derive(Clone, Copy)]
pub struct Held<'a, 'h> {
    pub detectors: Detectors,
    pub flux: &'a [f64],
    pub hit_values: &'h [f64],
    pub hit_tags: &'h [u32],
    pub used: usize,
}

// The part of the stored map that holds a detector's pixels.
#[tactic(auto, unfolding(crate::specs::Handed::stored_part_of))]
fn stored_part<'a>(p: Placed, stored: &'a [f64]) -> &'a [f64]
    requires { p.first + pixels_of p.detector ≤ length stored.now }
    ensures result_value { result.now ≡ stored_part_of p stored.now }
    ensures ref_ptr_value { result.ref_ptr ≡ doubles_on p.first stored.entry.ref_ptr }
{
    &stored[p.first..p.first + p.detector.pixels()]
}

impl<'a> Held<'a, '_> {
    // The asked detector, by 3, 5 to 8 and 18, and 4; then 9 unless the stored map, a work map of this length and the
    // hit list are theirs.
    #[tactic(auto, unfolding(crate::specs::Handed::check_filter_of, crate::specs::Handed::check_placed))]
    fn check_filter(self, asked: DetectorNo, work: usize) -> Result<Placed, Refusal>
        ensures { as_checked result ≡ check_filter_of self.entry.detectors asked (length self.entry.flux.now) work (length self.entry.hit_values.now) (length self.entry.hit_tags.now) self.entry.used }
    {
        let p = self.detectors.find(asked)?;
        if self.flux.len() != self.detectors.all_pixels()
            || work != p.detector.pixels()
            || !is_hit_list(self.hit_values.len(), self.hit_tags.len(), self.used)
        {
            return Err(Refusal {
                error: NonSeqError::InvalidSliceLength,
                place: 0,
            });
        }
        Ok(p)
    }

    // First of two calls: the work map zeroed and refilled with the hits that the filter lets through. All and
    // a refusal leave it; All's total and count are the stored ones.
    #[tactic(auto, unfolding(crate::specs::Handed::refilter_of, crate::specs::Handed::refilter_placed))]
    pub fn refilter(
        self,
        asked: DetectorNo,
        filter: RayPathFilter,
        work: &mut [f64],
    ) -> Result<Tally, Refusal>
        ensures { as_handed result work.new
            ≡ refilter_of self.entry.detectors asked filter self.entry.flux.now work.old self.entry.hit_values.now self.entry.hit_tags.now self.entry.used }
    {
        let p = self.check_filter(asked, work.len())?;
        let d = p.detector;
        if filter.is_all() {
            return Ok(Tally {
                total: d.total_flux_watts,
                count: d.total_rays_hit as usize,
            });
        }
        Ok(refill(
            filter,
            asked,
            d,
            work,
            self.hit_values,
            self.hit_tags,
            self.used,
        ))
    }

    // Second of two calls: the stored map's part of the detector for All, the work map for the others, an
    // empty part where the call is refused. The contract says what it holds and where in memory it lies.
    #[tactic(auto, unfolding(crate::specs::Handed::filtered_pixel_flux_of, crate::specs::Handed::part_placed, crate::specs::Handed::lies_placed))]
    pub fn filtered_pixel_flux(
        self,
        asked: DetectorNo,
        filter: RayPathFilter,
        work: &'a [f64],
    ) -> &'a [f64]
        ensures result_value { result.now
            ≡ filtered_pixel_flux_of self.entry.detectors asked filter self.entry.flux.now work.now self.entry.hit_values.now self.entry.hit_tags.now self.entry.used }
        ensures ref_ptr_value { result.ref_ptr ≡ lies_placed filter self.entry.flux.ref_ptr work.entry.ref_ptr
            (check_filter_of self.entry.detectors asked (length self.entry.flux.now) (length work.now) (length self.entry.hit_values.now) (length self.entry.hit_tags.now) self.entry.used) }
    {
        match self.check_filter(asked, work.len()) {
            Err(_) => &self.flux[..0],
            Ok(p) if filter.is_all() => stored_part(p, self.flux),
            Ok(_) => work,
        }
    }
}
