// The parts of a text between the places where a byte stands.
ghost use Rattle.std.specs.Prelude.{◌≡◌, [], ◌∷◌, ◌+◌, ◌<◌, length};
ghost use Rattle.fields.specs.Split.{front_of, end_at_of, after_of, is_byte_of, part_at_of, part_of, count_parts_of};

// The first place from `at` on that holds b, or the text's length where there is none.
pub fn end_at(s: &[u8], at: usize, b: u8) -> usize
    ensures { result ≡ end_at_of s.now at b }
{
    for i in at..s.len() {
        if s[i] == b {
            return i;
        }
    }
    at.max(s.len())
}

// Where the part that follows the one at `at` starts; past the length where there is none.
fn after(s: &[u8], at: usize, b: u8) -> usize
    ensures { result ≡ after_of s.now at b }
{
    if s.len() < at {
        return at;
    }
    end_at(s, at, b) + 1
}

// The part that starts at `at`; empty where none does.
fn part_at(s: &[u8], at: usize, b: u8) -> &[u8]
    ensures { result.now ≡ part_at_of s.now at b }
{
    if s.len() < at {
        return &s[0..0];
    }
    let e = end_at(s, at, b);
    &s[at..e]
}

// Part number k, from 0; empty where there are fewer.
pub fn part(s: &[u8], b: u8, k: usize) -> &[u8]
    ensures { result.now ≡ part_of s.now b k }
{
    let mut at: usize = 0;
    for _ in 0..k {
        at = after(s, at, b);
    }
    part_at(s, at, b)
}

// How many parts there are: one more than there are bs.
pub fn count_parts(s: &[u8], b: u8) -> usize
    ensures { result ≡ count_parts_of s.now b }
{
    let mut n: usize = 1;
    for x in s {
        if *x == b {
            n += 1;
        }
    }
    n
}

// Whether the text is the one byte b.
pub fn is_byte(s: &[u8], b: u8) -> bool
    ensures { result ≡ is_byte_of s.now b }
{
    s == [b].as_slice()
}

// The first n elements, or all.
#[tactic(auto, unfolding(crate::specs::Split::front_of))]
pub fn front<T: Copy>(l: &[T], n: usize) -> &[T]
    ensures { result.now ≡ front_of n l.now }
{
    if n <= l.len() { &l[..n] } else { l }
}
