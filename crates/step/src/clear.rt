// A ray at a clear surface.
ghost use Rattle.std.specs.Prelude.{◌≡◌};
ghost use Rattle.error.specs.Refusals.{as_answer};
ghost use Rattle.step.specs.Rays.{lent_optics, as_step};
ghost use Rattle.step.specs.Steps.{index_in_of, beyond_of, parted_of, between_of, clear_of, all_reflected_of, both_made_of};

use crate::{ActiveRay, End, Meeting, NonSeqTraceConfig, Step};
use error::NonSeqError;
use media::Media;
use rays::Ray;
use scene::{NonSeqHit, Solids};
use surface::FresnelInteraction;

// The index of the newest medium, else of the ambient.
#[tactic(auto, unfolding(crate::specs::Steps::index_in_of, crate::specs::Steps::medium_from))]
fn index_in(
    config: NonSeqTraceConfig,
    solids: Solids<'_>,
    media: Media,
    wavelength: f64,
) -> Result<f64, NonSeqError>
    ensures { as_answer result ≡ index_in_of (lent_optics solids.entry config) media wavelength }
{
    let ambient = config.ambient_medium;
    match media.newest() {
        Some(solid) => { solids.medium_at(solid).refractive_index(wavelength) }
        None => ambient.refractive_index(wavelength),
    }
}

// The media beyond the surface.
#[tactic(auto, unfolding(crate::specs::Steps::beyond_of))]
fn beyond(media: Media, hit: NonSeqHit) -> Media
    ensures { result ≡ beyond_of media hit }
{
    let solid = hit.object_id;
    if hit.entering {
        return media.entered(solid);
    }
    media.left(solid)
}

#[tactic(auto, unfolding(crate::specs::Steps::parted_by))]
fn all_reflected(threshold: f64, a: ActiveRay, media: Media, ray: Ray) -> Step
    ensures { as_step result ≡ all_reflected_of threshold a media ray }
{
    Step {
        end: End::Met(Meeting::Parted {
            reflected: ray.energy,
            transmitted: 0.0,
            total: true,
        }),
        reflected: (ray.energy > threshold).then(|| a.reflected(true, ray)),
        transmitted: None,
    }
}

// Transmitted power at most 0 counts as total reflection.
#[tactic(auto, unfolding(crate::specs::Steps::parted_by))]
fn both_made(threshold: f64, a: ActiveRay, media: Media, reflected: Ray, transmitted: Ray) -> Step
    ensures { as_step result ≡ both_made_of threshold a media reflected transmitted }
{
    let tir = transmitted.energy <= 0.0;
    Step {
        end: End::Met(Meeting::Parted {
            reflected: reflected.energy,
            transmitted: transmitted.energy,
            total: false,
        }),
        reflected: (reflected.energy > threshold).then(|| a.reflected(tir, reflected)),
        transmitted: (transmitted.energy > threshold).then(|| a.transmitted(transmitted, media)),
    }
}

#[tactic(auto, unfolding(crate::specs::Steps::parted_of))]
fn parted(
    threshold: f64,
    a: ActiveRay,
    media: Media,
    rays: Result<FresnelInteraction, NonSeqError>,
) -> Step
    ensures { as_step result ≡ parted_of threshold a media (as_answer rays) }
{
    match rays {
        Ok(FresnelInteraction::Total(ray)) => all_reflected(threshold, a, media, ray),
        Ok(
            FresnelInteraction::Split {
                reflected,
                transmitted,
            },
        ) => both_made(threshold, a, media, reflected, transmitted),
        Err(error) => Step::ends(End::Refused(error)),
    }
}

// Between two indices, each of which may be refused.
#[tactic(auto, unfolding(crate::specs::Steps::between_of))]
fn between(
    threshold: f64,
    a: ActiveRay,
    hit: NonSeqHit,
    media: Media,
    here: Result<f64, NonSeqError>,
    there: Result<f64, NonSeqError>,
) -> Step
    ensures { as_step result ≡ between_of threshold a hit media (as_answer here) (as_answer there) }
{
    let ray = a.ray;
    match (here, there) {
        (Ok(n1), Ok(n2)) => {
            let rays = surface::compute_snell_fresnel_interaction(ray, hit, n1, n2, ray.energy);
            parted(threshold, a, media, rays)
        }
        (Ok(_), Err(error)) => Step::ends(End::Refused(error)),
        (Err(error), _) => Step::ends(End::Refused(error)),
    }
}

#[tactic(auto, unfolding(crate::specs::Steps::clear_of))]
pub(crate) fn clear(
    config: NonSeqTraceConfig,
    solids: Solids<'_>,
    a: ActiveRay,
    hit: NonSeqHit,
) -> Step
    ensures { as_step result ≡ clear_of (lent_optics solids.entry config) a hit }
{
    let media = a.media;
    let after = beyond(media, hit);
    let wavelength = a.ray.wavelength_nm;
    let n1 = index_in(config, solids, media, wavelength);
    let n2 = index_in(config, solids, after, wavelength);
    between(config.min_power_threshold, a, hit, after, n1, n2)
}
