// The given rays of a tracing, as two lent lists of numbers, as they stand in the scene text (document 01,
// "Maps and lists").
#![tactic(auto)]

ghost use Rattle.std.specs.Prelude.{◌≡◌, ◌+◌, ◌*◌, ◌≤◌, length};
ghost use Rattle.error.specs.Refusals.{as_checked};
ghost use Rattle.given_rays.specs.Given.{read_ray_of, read_media_of, no_ray_of, rays_given, check_lists_of, all_solids_of, valid_media_of, check_ray_of, check_rays_of, launched_of, ray_doubles, ray_wholes};
ghost use Rattle.media.specs.Media.{max_media};

use error::{NonSeqError, Refusal};
use media::{MAX_MEDIA, Media};
use rays::{Ray, Vec3};
use scene::SolidNo;
use step::ActiveRay;

// Doubles and whole numbers of each ray in the two lists of rays.
pub const RAY_DOUBLES: usize = 8;

pub const RAY_WHOLES: usize = 10;

// The most rays (else 3), and the most media on one (else 11).
pub const MAX_RAYS: u32 = 4096;

pub const MAX_GIVEN_MEDIA: u32 = 8;

// Room for one ray more than the most, so that 3 comes in its order.
pub const RAY_ROOM: u32 = MAX_RAYS + 1;

pub const RAY_ROOM_DOUBLES: usize = RAY_ROOM as usize * RAY_DOUBLES;

pub const RAY_ROOM_WHOLES: usize = RAY_ROOM as usize * RAY_WHOLES;

// The given rays, lent. Of each 8 doubles: origin, direction, wavelength, power. Of each 10 whole numbers: bounce,
// number of media, 8 media.
#[derive(Clone, Copy)]
pub struct GivenRays<'a> {
    pub values: &'a [f64],
    pub tags: &'a [u32],
    pub count: u32,
}

#[tactic(auto, unfolding(crate::specs::Given::read_ray_of))]
fn read_ray(ray_values: &[f64], i: u32) -> Ray
    requires { i * ray_doubles + ray_doubles ≤ length ray_values.now }
    ensures { result ≡ read_ray_of ray_values.now i }
{
    let a = i as usize * RAY_DOUBLES;
    Ray {
        origin: Vec3 {
            x: ray_values[a],
            y: ray_values[a + 1],
            z: ray_values[a + 2],
        },
        direction: Vec3 {
            x: ray_values[a + 3],
            y: ray_values[a + 4],
            z: ray_values[a + 5],
        },
        wavelength_nm: ray_values[a + 6],
        energy: ray_values[a + 7],
    }
}

#[tactic(auto, unfolding(crate::specs::Given::read_media_of))]
fn read_media(ray_tags: &[u32], i: u32) -> Media
    requires { i * ray_wholes + ray_wholes ≤ length ray_tags.now }
    ensures { result ≡ read_media_of ray_tags.now i }
{
    let a = i as usize * RAY_WHOLES;
    let mut list = [SolidNo(0); MAX_MEDIA];
    list[0] = SolidNo(ray_tags[a + 2]);
    list[1] = SolidNo(ray_tags[a + 3]);
    list[2] = SolidNo(ray_tags[a + 4]);
    list[3] = SolidNo(ray_tags[a + 5]);
    list[4] = SolidNo(ray_tags[a + 6]);
    list[5] = SolidNo(ray_tags[a + 7]);
    list[6] = SolidNo(ray_tags[a + 8]);
    list[7] = SolidNo(ray_tags[a + 9]);
    Media {
        list,
        depth: ray_tags[a + 1],
    }
}

// What stands for a ray that the lists do not hold: NaN and 0.
#[tactic(auto, using(doubles::proofs::Floats::zero_by_zero), unfolding(crate::specs::Given::no_ray_of))]
pub fn no_ray() -> ActiveRay
    ensures { result ≡ no_ray_of }
{
    let nan = 0.0 / 0.0;
    let v = Vec3 {
        x: nan,
        y: nan,
        z: nan,
    };
    let list = [SolidNo(0); MAX_MEDIA];
    ActiveRay {
        ray: Ray {
            origin: v,
            direction: v,
            wavelength_nm: nan,
            energy: nan,
        },
        bounce_count: 0,
        reflection_count: 0,
        tir_count: 0,
        media: Media { list, depth: 0 },
    }
}

// Whether the first n places hold solids.
fn all_solids(list: [SolidNo; MAX_MEDIA], n: usize, solids: u32) -> bool
    requires { n ≤ max_media }
    ensures { result ≡ all_solids_of list solids n 0 }
{
    for i in 0..n {
        if list[i].0 >= solids {
            return false;
        }
    }
    true
}

// At most 8 media, each a solid.
#[tactic(auto, unfolding(crate::specs::Given::valid_media_of))]
fn valid_media(media: Media, solids: u32) -> bool
    ensures { result ≡ valid_media_of media solids }
{
    media.depth <= MAX_GIVEN_MEDIA && all_solids(media.list, media.depth as usize, solids)
}

// 10 for a ray that may not be given, then 11 for its media.
#[tactic(auto, unfolding(crate::specs::Given::check_ray_of))]
fn check_ray(a: ActiveRay, solids: u32, place: u32) -> Result<(), Refusal>
    ensures { as_checked result ≡ check_ray_of a solids place }
{
    if !a.ray.is_valid() {
        return Err(Refusal {
            error: NonSeqError::InvalidRay,
            place,
        });
    }
    if !valid_media(a.media, solids) {
        return Err(Refusal {
            error: NonSeqError::InvalidMedia,
            place,
        });
    }
    Ok(())
}

// Whether lists of these lengths are those of so many rays (17).
#[tactic(auto, unfolding(crate::specs::Given::check_lists_of))]
pub fn check_lists(ray_values: usize, ray_tags: usize, rays: u32) -> Result<(), Refusal>
    ensures { as_checked result ≡ check_lists_of ray_values ray_tags rays }
{
    if ray_values == rays as usize * RAY_DOUBLES && ray_tags == rays as usize * RAY_WHOLES {
        return Ok(());
    }
    Err(Refusal {
        error: NonSeqError::InvalidSceneText,
        place: 0,
    })
}

impl GivenRays<'_> {
    // Ray i, as it starts.
    #[tactic(auto, unfolding(crate::specs::Given::given_at_of))]
    pub fn at(self, i: u32) -> ActiveRay
        ensures { result ≡ rays_given self.entry i }
    {
        let none = no_ray();
        if i as usize * RAY_DOUBLES + RAY_DOUBLES <= self.values.len() {
            if i as usize * RAY_WHOLES + RAY_WHOLES <= self.tags.len() {
                return ActiveRay {
                    ray: read_ray(self.values, i),
                    bounce_count: self.tags[i as usize * RAY_WHOLES],
                    reflection_count: 0,
                    tir_count: 0,
                    media: read_media(self.tags, i),
                };
            }
        }
        none
    }

    // Whether the lists are those of so many rays (17).
    pub fn check_lists(self) -> Result<(), Refusal>
        ensures { as_checked result ≡ check_lists_of (length self.entry.values.now) (length self.entry.tags.now) self.entry.count }
    {
        check_lists(self.values.len(), self.tags.len(), self.count)
    }

    // The first of the rays that is refused, by 10 or 11.
    pub fn check(self, solids: u32) -> Result<(), Refusal>
        ensures { as_checked result ≡ check_rays_of (rays_given self.entry) solids self.entry.count 0 }
    {
        for i in 0..self.count {
            check_ray(self.at(i), solids, i)?;
        }
        Ok(())
    }

    // The power launched, summed first to last.
    pub fn launched(self) -> f64
        ensures { result ≡ launched_of (rays_given self.entry) self.entry.count }
    {
        let mut sum = 0.0;
        for i in 0..self.count {
            sum += self.at(i).ray.energy;
        }
        sum
    }
}
