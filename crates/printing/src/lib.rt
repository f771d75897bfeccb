// Numbers and bytes written into a lent buffer, one after another (document 01, `straymap`: doubles "printed
// with trailing zeros dropped, at least one digit, NaN as `7ff8`", other numbers decimal).
#![tactic(auto)]

mod rows;

ghost use Rattle.std.specs.Prelude.{◌≡◌, [], ◌∷◌, ◌<◌};
ghost use Rattle.printing.specs.Printing.{out, put_all, glyph_of, hex_text, double_text, decimal_text};

pub use rows::put_row;

// One byte at place `at`, and the place after it; a byte for which there is no place is not written.
#[tactic(auto, unfolding(crate::specs::Printing::put_all, crate::specs::Printing::next_at))]
pub fn put(buf: &mut [u8], at: usize, b: u8) -> usize
    ensures { out buf.new result ≡ put_all buf.old at (b ∷ []) }
{
    if at < buf.len() {
        buf[at] = b;
        return at + 1;
    }
    at
}

pub fn put_all(buf: &mut [u8], at: usize, t: &[u8]) -> usize
    ensures { out buf.new result ≡ put_all buf.old at t.now }
{
    let mut p = at;
    for b in t {
        p = put(buf, p, *b);
    }
    p
}

#[tactic(auto, unfolding(crate::specs::Printing::glyph_of))]
fn glyph(d: u64) -> u8
    requires { d < 16 }
    ensures { result ≡ glyph_of d }
{
    if d < 10 {
        b'0' + d as u8
    } else {
        b'a' + (d as u8 - 10)
    }
}

// Sixteen hex digits, trailing zeros dropped, at least one.
pub fn put_hex(buf: &mut [u8], at: usize, n: u64) -> usize
    ensures { out buf.new result ≡ put_all buf.old at (hex_text 16 n) }
{
    let mut p = at;
    let mut rest = n;
    for _ in 0..16usize {
        p = put(buf, p, glyph(rest / 0x1000_0000_0000_0000));
        let low = rest % 0x1000_0000_0000_0000;
        if low == 0 {
            return p;
        }
        rest = low * 16;
    }
    p
}

// The hex digits of a double's bits.
#[tactic(auto, unfolding(crate::specs::Printing::double_text))]
pub fn put_double(buf: &mut [u8], at: usize, x: f64) -> usize
    ensures { out buf.new result ≡ put_all buf.old at (double_text x) }
{
    put_hex(buf, at, doubles::to_bits(x))
}

#[tactic(auto, using(crate::proofs::Back::digits_are, crate::proofs::Back::few_digits))]
pub fn put_decimal(buf: &mut [u8], at: usize, n: u64) -> usize
    ensures { out buf.new result ≡ put_all buf.old at (decimal_text 20 n) }
{
    let mut t = [0u8; 20];
    let k = io::decimal(n, &mut t);
    put_all(buf, at, &t[..k])
}
