// The square root: the double nearest to the exact root. A guess in floating point is pinned down by
// an exact test on whole numbers, so that nothing rests on how good the guess is.
ghost use Rattle.std.specs.Prelude.{◌≡◌, ◌+◌, ◌*◌, ◌^◌, ◌<◌, ◌≤◌, from_bits};
ghost use Rattle.std.specs.Float.{binary64};
ghost use Rattle.doubles.specs.Root.{sqrt_of, nearest_root_of, is_nearest_root_of};
ghost use Rattle.doubles.specs.Guess.{guess_of};

// Whether q is the whole number nearest to the root of m * 2^52.
// With q = h * 2^27 + l, m * 2^52 - q * q is ((m - 4 * h * h) * 2^24 - h * l) * 2^28 - l * l,
// and 2^54 is added on the way so that no difference is negative.
fn is_nearest_root(m: u64, q: u64) -> bool
    requires { (m < 2 ^ 54) × (q < 2 ^ 53) }
    ensures { result ≡ is_nearest_root_of (m * 2 ^ 52) q }
{
    let h = q / 0x800_0000;
    let l = q % 0x800_0000;
    let a = h * h * 4;
    let n = m + 4;
    if n < a {
        return false;
    }
    let d = n - a;
    if 0x4000_0000 <= d {
        return false;
    }
    let e = d * 0x100_0000;
    let b = h * l;
    if e < b {
        return false;
    }
    let f = e - b;
    if 0x1_0000_0000 <= f {
        return false;
    }
    let g = f * 0x1000_0000 + q;
    let c = l * l + 0x40_0000_0000_0000;
    if g <= c {
        return false;
    }
    if q + q < g - c {
        return false;
    }
    true
}

// A float near the root of the double whose bits are b, times a power of two. y is near 1 / √x; two
// steps of Goldschmidt's iteration bring g near √x and h near 1 / (2 * √x), with constants that make
// their errors lie evenly about 0. The first step turns both signs and the second turns them back.
// t has the first digits of g1, so that t * t and x - t * t are exact, and d, which is x - g * g,
// nearly so.
#[tactic(auto, using(crate::proofs::Floats::positive_no_nan), unfolding(crate::specs::Guess::guess_of, crate::specs::Guess::scaled_bits))]
fn guess(b: u64) -> f64
    ensures { result ≡ guess_of b }
{
    // the same digits, with an exponent such that x is from 1/2 up and below 2
    let n = b % 0x20_0000_0000_0000 + 0x3fe0_0000_0000_0000;
    let x = f64::from_bits(n);
    let y = f64::from_bits(0x5fe6_ed21_0000_0000 - n / 2);
    let g0 = x * y;
    let h0 = y * 0.5;
    let r0 = g0 * h0 - 1.50087894;
    let g1 = g0 * r0;
    let h1 = h0 * r0;
    let t = (g1 + 201326592.0) - 201326592.0;
    let r1 = g1 * h1 - 1.50000058;
    let g = g1 * r1;
    let h = h1 * r1;
    let d = (x - t * t) - (g - t) * (g + t);
    g + d * (h * (1.75 - g * (h * 1.5)))
}

// The same root found a binary digit at a time, with what is left of the number: for a guess that
// fails.
fn nearest_root(m: u64) -> u64
    requires { (2 ^ 52 ≤ m) × (m + 1 < 2 ^ 54) }
    ensures { result ≡ nearest_root_of (m * 2 ^ 52) }
{
    let mut n = m;
    let mut q: u64 = 0;
    let mut r: u64 = 0;
    for _ in 0..53u64 {
        r = r * 4 + n / 0x10_0000_0000_0000;
        n = n % 0x10_0000_0000_0000 * 4;
        let t = q * 4 + 1;
        q = q * 2;
        if t <= r {
            r -= t;
            q += 1;
        }
    }
    if q < r { q + 1 } else { q }
}

// The root of a subnormal double above zero, whose bits b are its digits, the slow way.
fn root_subnormal(b: u64) -> f64
    requires { (0 < b) × (b < 2 ^ 52) }
    ensures { result ≡ sqrt_of (from_bits binary64 b) }
{
    let s = u64::leading_zeros(b) as u64 - 11;
    let d = b << s;
    let r = nearest_root(d << (s % 2));
    f64::from_bits((1022 - s) / 2 * 0x10_0000_0000_0000 + r)
}

// The root of the double whose bits are b, finite and above zero, the slow way. With e the exponent's
// field and d the digits, one that is not subnormal is d * 2^(e - 1) smallest values, which are
// 2^-1074 each.
fn root_slowly(b: u64) -> f64
    requires { (0 < b) × (b < 0x7ff0_0000_0000_0000) }
    ensures { result ≡ sqrt_of (from_bits binary64 b) }
{
    if b < 0x10_0000_0000_0000 {
        return root_subnormal(b);
    }
    let e = b / 0x10_0000_0000_0000;
    let d = b % 0x10_0000_0000_0000 + 0x10_0000_0000_0000;
    let r = nearest_root(d << ((e + 1) % 2));
    f64::from_bits((e + 1021) / 2 * 0x10_0000_0000_0000 + r)
}

// The same where b is not subnormal, by a whole number that may be the nearest root of its digits, or
// the slow way if it is not.
fn root_by(b: u64, q: u64) -> f64
    requires { (2 ^ 52 ≤ b) × (b < 0x7ff0_0000_0000_0000) × (q < 2 ^ 53) }
    ensures { result ≡ sqrt_of (from_bits binary64 b) }
{
    let e = b / 0x10_0000_0000_0000;
    let d = b % 0x10_0000_0000_0000 + 0x10_0000_0000_0000;
    if is_nearest_root(d << ((e + 1) % 2), q) {
        return f64::from_bits((e + 1021) / 2 * 0x10_0000_0000_0000 + q);
    }
    root_slowly(b)
}

// The root of a double within 2^-26 of 1, as the squared length of a vector that was made a unit vector is:
// half as far from 1, by as many of the smallest steps; an odd number of steps goes to the lower root.
#[tactic(auto, using(crate::proofs::Floats::positive_no_nan, crate::proofs::Beside::root_beside))]
fn root_beside_one(b: u64) -> f64
    requires { (0x3fef_ffff_fc00_0000 ≤ b) × (b < 0x3ff0_0000_0400_0000) }
    ensures { result ≡ sqrt_of (from_bits binary64 b) }
{
    f64::from_bits((b + 0x3ff0_0000_0000_0000) / 2)
}

// By the guess.
#[tactic(auto, using(crate::proofs::Floats::same_no_nan))]
fn root_guessed(b: u64) -> f64
    requires { (2 ^ 52 ≤ b) × (b < 0x7ff0_0000_0000_0000) }
    ensures { result ≡ sqrt_of (from_bits binary64 b) }
{
    let g = guess(b);
    if g != g {
        return root_slowly(b);
    }
    root_by(
        b,
        f64::to_bits(g) % 0x10_0000_0000_0000 + 0x10_0000_0000_0000,
    )
}

// The root of any double, one that is not beside 1 as a rule: for callers whose roots lie anywhere.
pub fn root_elsewhere(x: f64) -> f64
    ensures { result ≡ sqrt_of x }
{
    if x != x {
        return x;
    }
    let b = f64::to_bits(x);
    if 0x10_0000_0000_0000 <= b {
        if b < 0x7ff0_0000_0000_0000 {
            return root_guessed(b);
        }
        if b == 0x7ff0_0000_0000_0000 {
            return x;
        }
        if b == 0x8000_0000_0000_0000 {
            return x;
        }
        return 0.0 / 0.0;
    }
    if b == 0 {
        return x;
    }
    root_slowly(b)
}

// `x.sqrt()`: the double nearest to the root of x. Roots beside 1 are short enough to be worked out where
// they are asked for.
#[tactic(auto, using(crate::proofs::Floats::same_no_nan, crate::proofs::Floats::differs_is_nan, crate::proofs::Roots::own_nan, crate::proofs::Roots::by_bits))]
pub fn sqrt(x: f64) -> f64
    ensures { result ≡ sqrt_of x }
{
    if x != x {
        return x;
    }
    let b = f64::to_bits(x);
    if b < 0x3fef_ffff_fc00_0000 {
        return root_elsewhere(x);
    }
    if b < 0x3ff0_0000_0400_0000 {
        return root_beside_one(b);
    }
    root_elsewhere(x)
}
