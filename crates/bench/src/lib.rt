// Loops for the drivers in bench/, exported to Rust.
#![tactic(auto)]

ghost use Rattle.std.specs.Prelude.{◌≡◌};
ghost use Rattle.std.specs.Float.Ieee.{of_bits};
ghost use Rattle.std.specs.Float.{binary64};
ghost use Rattle.scene.specs.Solids.{object_at_of};
ghost use Rattle.scene.specs.Closest.{closest_object_of};
ghost use Rattle.bench.specs.Loops.{bench_root_sum_of, bench_root_chain_of};
ghost use Rattle.bench.specs.Hits.{bench_ray, met_of, missed_of, bench_hit_of};

use rays::{Ray, Vec3};
use scene::{NonSeqHit, Solids};

// A hit in plain numbers; all zero but for `met` where there is none.
#[repr(C)]
#[derive(Clone, Copy)]
pub struct BenchHit {
    pub met: u32,
    pub solid: u32,
    pub entering: u32,
    pub t: f64,
    pub x: f64,
    pub y: f64,
    pub z: f64,
    pub nx: f64,
    pub ny: f64,
    pub nz: f64,
    pub gx: f64,
    pub gy: f64,
    pub gz: f64,
}

// The sum of the roots: no root waits for another.
pub fn bench_root_sum(xs: &[f64]) -> f64
    ensures { result ≡ bench_root_sum_of (of_bits binary64 0) xs.now }
{
    let mut t = 0.0;
    for x in xs {
        t += doubles::sqrt(*x);
    }
    t
}

// Each root waits for the one before.
pub fn bench_root_chain(xs: &[f64]) -> f64
    ensures { result ≡ bench_root_chain_of (of_bits binary64 0) xs.now }
{
    let mut t = 0.0;
    for x in xs {
        t = doubles::sqrt(*x + t);
    }
    t
}

#[tactic(auto, unfolding(crate::specs::Hits::met_of))]
fn met(h: NonSeqHit) -> BenchHit
    ensures { result ≡ met_of h }
{
    let p = h.point;
    let n = h.normal;
    let g = h.geometric_normal;
    let id = h.object_id;
    BenchHit {
        met: 1,
        solid: id.0,
        entering: h.entering as u32,
        t: h.t,
        x: p.x,
        y: p.y,
        z: p.z,
        nx: n.x,
        ny: n.y,
        nz: n.z,
        gx: g.x,
        gy: g.y,
        gz: g.z,
    }
}

#[tactic(auto, unfolding(crate::specs::Hits::missed_of))]
fn missed() -> BenchHit
    ensures { result ≡ missed_of }
{
    BenchHit {
        met: 0,
        solid: 0,
        entering: 0,
        t: 0.0,
        x: 0.0,
        y: 0.0,
        z: 0.0,
        nx: 0.0,
        ny: 0.0,
        nz: 0.0,
        gx: 0.0,
        gy: 0.0,
        gz: 0.0,
    }
}

#[tactic(auto, unfolding(crate::specs::Hits::bench_hit_of))]
fn bench_hit(h: Option<NonSeqHit>) -> BenchHit
    ensures { result ≡ bench_hit_of h }
{
    match h {
        Some(m) => met(m),
        None => missed(),
    }
}

// The nearest solid along the ray from (ox, oy, oz) along (dx, dy, dz).
#[tactic(auto, unfolding(crate::specs::Hits::bench_ray, crate::specs::Hits::bench_hit_of))]
pub fn bench_closest(
    solid_values: &[f64],
    solid_tags: &[u32],
    count: u32,
    ox: f64,
    oy: f64,
    oz: f64,
    dx: f64,
    dy: f64,
    dz: f64,
) -> BenchHit
    ensures { result ≡ bench_hit_of (closest_object_of (object_at_of solid_values.now solid_tags.now) count (bench_ray ox oy oz dx dy dz)) }
{
    let ray = Ray {
        origin: Vec3 {
            x: ox,
            y: oy,
            z: oz,
        },
        direction: Vec3 {
            x: dx,
            y: dy,
            z: dz,
        },
        wavelength_nm: 550.0,
        energy: 1.0,
    };
    let solids = Solids {
        values: solid_values,
        tags: solid_tags,
        count,
    };
    bench_hit(solids.closest_object(ray))
}
