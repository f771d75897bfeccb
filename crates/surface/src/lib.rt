// What a surface makes of a ray (document 01, module 8), after trace.rs: reflection and refraction at a
// clear one, reflection at a mirror.
#![tactic(auto)]

ghost use Rattle.std.specs.Prelude.{◌≡◌};
ghost use Rattle.error.specs.Refusals.{as_answer};
ghost use Rattle.surface.specs.Fresnel.{leaving_of, cosine_of, radicand_of, reflected_direction_of, refracted_direction_of, amplitude_of, reflectance_of, refract_of, compute_snell_fresnel_interaction_of, mirrored_power_of, mirrored_of};

use error::NonSeqError;
use rays::{Ray, Vec3};
use scene::NonSeqHit;

#[derive(Clone, Copy)]
pub enum FresnelInteraction {
    // total reflection: no second ray
    Total(Ray),
    Split { reflected: Ray, transmitted: Ray },
}

// A ray along d that starts just beyond p.
#[tactic(auto, unfolding(crate::specs::Fresnel::leaving_of))]
fn leaving(ray: Ray, p: Vec3, d: Vec3, power: f64) -> Result<Ray, NonSeqError>
    ensures { as_answer result ≡ leaving_of ray p d power }
{
    let origin = p.plus(d.scale(Ray::OFFSET));
    Ray::new(origin, d, ray.wavelength_nm, power)
}

#[tactic(auto, unfolding(crate::specs::Fresnel::cosine_of))]
fn cosine(d: Vec3, n: Vec3) -> f64
    ensures { result ≡ cosine_of d n }
{
    doubles::clamp(-d.dot(n), 0.0, 1.0)
}

#[tactic(auto, unfolding(crate::specs::Fresnel::radicand_of))]
fn radicand(eta: f64, c1: f64) -> f64
    ensures { result ≡ radicand_of eta c1 }
{
    1.0 - eta * eta * doubles::max_zero(1.0 - c1 * c1)
}

#[tactic(auto, unfolding(crate::specs::Fresnel::reflected_direction_of))]
fn reflected_direction(d: Vec3, n: Vec3, c1: f64) -> Vec3
    ensures { result ≡ reflected_direction_of d n c1 }
{
    d.plus(n.scale(2.0 * c1)).normalize()
}

#[tactic(auto, unfolding(crate::specs::Fresnel::refracted_direction_of))]
fn refracted_direction(d: Vec3, n: Vec3, eta: f64, c1: f64, c2: f64) -> Vec3
    ensures { result ≡ refracted_direction_of d n eta c1 c2 }
{
    d.scale(eta).plus(n.scale(eta * c1 - c2)).normalize()
}

#[tactic(auto, unfolding(crate::specs::Fresnel::amplitude_of))]
fn amplitude(a: f64, b: f64) -> f64
    ensures { result ≡ amplitude_of a b }
{
    (a - b) / (a + b)
}

// The share of unpolarised light that is reflected.
#[tactic(auto, unfolding(crate::specs::Fresnel::reflectance_of))]
fn reflectance(n1: f64, n2: f64, c1: f64, c2: f64) -> f64
    ensures { result ≡ reflectance_of n1 n2 c1 c2 }
{
    let rs = amplitude(n1 * c1, n2 * c2);
    let rp = amplitude(n2 * c1, n1 * c2);
    doubles::clamp(0.5 * (rs * rs + rp * rp), 0.0, 1.0)
}

// Where the radicand is not at most 0.
#[tactic(auto, unfolding(crate::specs::Fresnel::refract_of, crate::specs::Fresnel::both_of))]
fn refract(
    ray: Ray,
    hit: NonSeqHit,
    n1: f64,
    n2: f64,
    eta: f64,
    c1: f64,
    power: f64,
) -> Result<FresnelInteraction, NonSeqError>
    ensures { as_answer result ≡ refract_of ray hit n1 n2 eta c1 power }
{
    let d = ray.direction;
    let n = hit.normal;
    let p = hit.point;
    let c2 = doubles::root_elsewhere(radicand(eta, c1));
    let f = reflectance(n1, n2, c1, c2);
    let reflected = leaving(ray, p, reflected_direction(d, n, c1), power * f)?;
    let transmitted = leaving(
        ray,
        p,
        refracted_direction(d, n, eta, c1, c2),
        power * (1.0 - f),
    )?;
    Ok(FresnelInteraction::Split {
        reflected,
        transmitted,
    })
}

// A clear surface between indices n1, where the ray comes from, and n2. A radicand at most 0 is total
// reflection. A ray with a part that is not finite is refused (16), whatever its power.
#[tactic(auto, unfolding(crate::specs::Fresnel::compute_snell_fresnel_interaction_of, crate::specs::Fresnel::total_of))]
pub fn compute_snell_fresnel_interaction(
    ray: Ray,
    hit: NonSeqHit,
    n1: f64,
    n2: f64,
    power: f64,
) -> Result<FresnelInteraction, NonSeqError>
    ensures { as_answer result ≡ compute_snell_fresnel_interaction_of ray hit n1 n2 power }
{
    let d = ray.direction;
    let n = hit.normal;
    let c1 = cosine(d, n);
    let eta = n1 / n2;
    if radicand(eta, c1) <= 0.0 {
        let reflected = leaving(ray, hit.point, reflected_direction(d, n, c1), power)?;
        return Ok(FresnelInteraction::Total(reflected));
    }
    refract(ray, hit, n1, n2, eta, c1, power)
}

// The power that a mirror sends on.
#[tactic(auto, unfolding(crate::specs::Fresnel::mirrored_power_of))]
pub fn mirrored_power(power: f64, reflectance: f64) -> f64
    ensures { result ≡ mirrored_power_of power reflectance }
{
    power * doubles::clamp(reflectance, 0.0, 1.0)
}

// The ray that a mirror sends on, or 16.
#[tactic(auto, unfolding(crate::specs::Fresnel::mirrored_of))]
pub fn mirrored(ray: Ray, hit: NonSeqHit, power: f64) -> Result<Ray, NonSeqError>
    ensures { as_answer result ≡ mirrored_of ray hit power }
{
    let d = ray.direction;
    let n = hit.normal;
    let along = d.minus(n.scale(2.0 * d.dot(n))).normalize();
    leaving(ray, hit.point, along, power)
}
