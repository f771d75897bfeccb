// The loops of `bench` for the drivers in bench/: each entry calls the function of its name, and promises what it does.
#![tactic(auto)]

ghost use Rattle.bench.specs.Hits.{bench_hit_of, bench_ray};
ghost use Rattle.bench.specs.Loops.{bench_root_chain_of, bench_root_sum_of};
ghost use Rattle.scene.specs.Closest.{closest_object_of};
ghost use Rattle.scene.specs.Solids.{object_at_of};
ghost use Rattle.std.specs.Float.{binary64};
ghost use Rattle.std.specs.Float.Ieee.{of_bits};
ghost use Rattle.std.specs.Prelude.{◌≡◌};

use bench::BenchHit;

// The sum of the roots: no root waits for another.
#[unsafe(no_mangle)]
pub extern "C" fn bench_root_sum(xs: &[f64]) -> f64
    ensures { result ≡ bench_root_sum_of (of_bits binary64 0) xs.now }
{
    bench::bench_root_sum(xs)
}

// Each root waits for the one before.
#[unsafe(no_mangle)]
pub extern "C" fn bench_root_chain(xs: &[f64]) -> f64
    ensures { result ≡ bench_root_chain_of (of_bits binary64 0) xs.now }
{
    bench::bench_root_chain(xs)
}

// The nearest solid along the ray from (ox, oy, oz) along (dx, dy, dz).
#[unsafe(no_mangle)]
pub extern "C" fn bench_closest(
    solid_values: &[f64],
    solid_tags: &[u32],
    count: u32,
    ox: f64,
    oy: f64,
    oz: f64,
    dx: f64,
    dy: f64,
    dz: f64,
) -> BenchHit
    ensures { result ≡ bench_hit_of (closest_object_of (object_at_of solid_values.now solid_tags.now) count (bench_ray ox oy oz dx dy dz)) }
{
    bench::bench_closest(solid_values, solid_tags, count, ox, oy, oz, dx, dy, dz)
}
