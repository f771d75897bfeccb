// Places and parts of lists of numbers. Past the end there is nothing to read or to write.
ghost use Rattle.std.specs.Prelude.{◌≤◌};

// n numbers from place `from` on; none where there are fewer.
pub fn part_from<T>(s: &[T], from: usize, n: usize) -> &[T] {
    s.get(from..from.wrapping_add(n)).unwrap_or(&[])
}

// The number at a place; 0 past the end.
pub fn number_at<T: Copy + Default>(s: &[T], i: usize) -> T {
    s.get(i).copied().unwrap_or_default()
}

// The number at a place as one below 2^32, and as the bits of a double.
pub fn low_at(s: &[u64], i: usize) -> u32 {
    (number_at(s, i) % 0x1_0000_0000) as u32
}

pub fn bits_at(s: &[u64], i: usize) -> f64 {
    doubles::from_bits(number_at(s, i))
}

// The number at a place, at most `most`.
pub fn few(s: &[u64], i: usize, most: usize) -> usize
    ensures { result ≤ most }
{
    most.min(number_at(s, i) as usize)
}

// Whether there was such a place to write to.
pub fn put_number<T: Copy>(s: &mut [T], i: usize, x: T) -> bool {
    if i < s.len() {
        s[i] = x;
        return true;
    }
    false
}

// Puts numbers from place `at` on.
pub fn put_numbers<T: Copy>(s: &mut [T], at: usize, xs: &[T]) {
    for (place, x) in s.iter_mut().skip(at).zip(xs) {
        *place = *x;
    }
}

// Takes numbers from place `at` on.
pub fn take_numbers<T: Copy + Default>(s: &mut [T], xs: &[T], at: usize) {
    for (i, place) in s.iter_mut().enumerate() {
        *place = number_at(xs, at.wrapping_add(i));
    }
}

// A number that is counted on from.
pub trait Counted: Copy {
    fn one_more(self) -> Self;
}

impl Counted for u32 {
    fn one_more(self) -> u32 {
        self.wrapping_add(1)
    }
}

impl Counted for f64 {
    fn one_more(self) -> f64 {
        self + 1.0
    }
}

// Place i becomes `first` and i more.
pub fn count_from<T: Counted>(s: &mut [T], first: T) {
    let mut x = first;
    for place in s.iter_mut() {
        *place = x;
        x = x.one_more();
    }
}

// The n numbers from place `at` on.
pub fn clear_numbers(s: &mut [u64], at: usize, n: usize) {
    for place in s.iter_mut().skip(at).take(n) {
        *place = 0;
    }
}

// Raised by n.
pub fn raise(s: &mut [u64], i: usize, n: u64) {
    put_number(s, i, number_at(s, i).wrapping_add(n));
}
