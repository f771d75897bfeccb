// One step of a ray's life (document 01, "How a ray lives"), after trace.rs: what becomes of the newest
// ray, and which rays come of it. It sees no memory.
#![tactic(auto)]

mod ahead;
mod clear;
mod mirror;

ghost use Rattle.std.specs.Prelude.{◌≡◌};
ghost use Rattle.step.specs.Rays.{lent_optics, lent_scene, ends_of, more_of, reflected_of, transmitted_of, as_end, as_step};
ghost use Rattle.step.specs.Steps.{caught_by_of, surface_of, interact_of, take_step_of};

pub use ahead::{Ahead, first_ahead};
use detector::{DetectorHit, MAX_COUNT};
use error::NonSeqError;
use faces::{Faces, Sight};
use material::{OpticalMedium, SurfaceFinish};
use media::Media;
use rays::Ray;
use scene::{NonSeqHit, Solids};

// By which rules rays are traced.
#[derive(Clone, Copy)]
pub struct NonSeqTraceConfig {
    pub max_bounces: u32,
    pub min_power_threshold: f64,
    pub ambient_medium: OpticalMedium,
}

// A ray on its way, with the solids that it is inside of.
#[derive(Clone, Copy)]
pub struct ActiveRay {
    pub ray: Ray,
    pub bounce_count: u32,
    pub reflection_count: u32,
    pub tir_count: u32,
    pub media: Media,
}

// What a solid makes of a ray's power.
#[derive(Clone, Copy)]
pub enum Meeting {
    // an absorber stops this power
    Stopped(f64),
    // a mirror keeps and reflects these powers
    Mirrored {
        kept: f64,
        reflected: f64,
    },
    // a clear surface reflects and transmits these powers; `total` where the radicand is at most 0
    Parted {
        reflected: f64,
        transmitted: f64,
        total: bool,
    },
}

// What becomes of a ray. A refusal is one of the ways in which it ends, and the report and the run tell all of them
// apart: no Result.
#[derive(Clone, Copy)]
pub enum End {
    // its power is at most the threshold
    Dim,
    // it has bounced as often as it may
    Spent,
    // it meets nothing
    Gone,
    Caught(DetectorHit),
    // a solid is nearest
    Met(Meeting),
    Refused(NonSeqError),
}

// One step: what becomes of the ray, and the rays that come of it, if they are made.
#[derive(Clone, Copy)]
pub struct Step {
    pub end: End,
    pub reflected: Option<ActiveRay>,
    pub transmitted: Option<ActiveRay>,
}

// A count raised by 1, the largest excepted.
#[tactic(auto, unfolding(crate::specs::Rays::more_of))]
pub fn more(n: u32) -> u32
    ensures { result ≡ more_of n }
{
    if n < MAX_COUNT {
        return n + 1;
    }
    n
}

impl Step {
    // The step of which no ray comes.
    fn ends(end: End) -> Step
        ensures { as_step result ≡ ends_of (as_end end) }
    {
        Step {
            end,
            reflected: None,
            transmitted: None,
        }
    }
}

impl ActiveRay {
    // The ray that a surface reflects, by total reflection or not.
    #[tactic(auto, unfolding(crate::specs::Rays::reflected_of))]
    fn reflected(self, tir: bool, ray: Ray) -> ActiveRay
        ensures { result ≡ reflected_of tir self ray }
    {
        let media = self.media;
        let bounce_count = more(self.bounce_count);
        if tir {
            return ActiveRay {
                ray,
                bounce_count,
                reflection_count: self.reflection_count,
                tir_count: more(self.tir_count),
                media,
            };
        }
        ActiveRay {
            ray,
            bounce_count,
            reflection_count: more(self.reflection_count),
            tir_count: self.tir_count,
            media,
        }
    }

    // The ray that a surface lets through into the media beyond.
    #[tactic(auto, unfolding(crate::specs::Rays::transmitted_of))]
    fn transmitted(self, ray: Ray, beyond: Media) -> ActiveRay
        ensures { result ≡ transmitted_of self ray beyond }
    {
        ActiveRay {
            ray,
            bounce_count: more(self.bounce_count),
            reflection_count: self.reflection_count,
            tir_count: self.tir_count,
            media: beyond,
        }
    }

    // What a detector that it crosses is to record.
    fn caught_by(self, sight: Sight) -> DetectorHit
        ensures { result ≡ caught_by_of self sight }
    {
        let ray = self.ray;
        let crossing = sight.crossing;
        let detector = sight.detector;
        DetectorHit {
            local_x: crossing.local_x,
            local_y: crossing.local_y,
            flux_watts: ray.energy,
            wavelength_nm: ray.wavelength_nm,
            detector,
            bounce_count: self.bounce_count,
            reflection_count: self.reflection_count,
            tir_count: self.tir_count,
        }
    }
}

// What the nearest solid makes of a ray.
#[tactic(auto, unfolding(crate::specs::Steps::surface_by, crate::specs::Steps::surface_of))]
fn surface(config: NonSeqTraceConfig, solids: Solids<'_>, a: ActiveRay, hit: NonSeqHit) -> Step
    ensures { as_step result ≡ surface_of (lent_optics solids.entry config) a hit }
{
    let solid = hit.object_id;
    match solids.finish_at(solid) {
        SurfaceFinish::Specular => clear::clear(config, solids, a, hit),
        SurfaceFinish::Mirror { reflectance } => {
            mirror::mirror(config.min_power_threshold, a, hit, reflectance)
        }
        SurfaceFinish::Absorber => Step::ends(End::Met(Meeting::Stopped(a.ray.energy))),
    }
}

#[tactic(auto, unfolding(crate::specs::Steps::interact_of, crate::specs::Steps::meets_with))]
fn interact(config: NonSeqTraceConfig, solids: Solids<'_>, faces: Faces, a: ActiveRay) -> Step
    ensures { as_step result ≡ interact_of (lent_scene solids.entry faces config) a }
{
    let ray = a.ray;
    let seen = faces.nearest_detector(ray);
    let met = solids.closest_object(ray);
    match ahead::first_ahead(seen, met) {
        Ahead::Detector(sight) => Step::ends(End::Caught(a.caught_by(sight))),
        Ahead::Solid(hit) => surface(config, solids, a, hit),
        Ahead::Nothing => Step::ends(End::Gone),
    }
}

// What becomes of a ray among the solids and the faces of the detectors.
#[tactic(auto, unfolding(crate::specs::Steps::take_step_of))]
pub fn take_step(config: NonSeqTraceConfig, solids: Solids<'_>, faces: Faces, a: ActiveRay) -> Step
    ensures { as_step result ≡ take_step_of (lent_scene solids.entry faces config) a }
{
    if a.ray.energy <= config.min_power_threshold {
        return Step::ends(End::Dim);
    }
    if a.bounce_count >= config.max_bounces {
        return Step::ends(End::Spent);
    }
    interact(config, solids, faces, a)
}
