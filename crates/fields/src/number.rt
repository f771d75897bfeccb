// Numbers in text: hex digits of a double's bits, and decimals.
ghost use Rattle.std.specs.Prelude.{◌≡◌, true, ◌≤◌};
ghost use Rattle.fields.specs.Number.{digit_of, digit_at_of, is_hex_of, hex_pad_of, read_bits_of, is_led_by_zero_of, read_whole_of};

// What a hex digit counts; 16 for any other byte.
#[tactic(auto, unfolding(crate::specs::Number::digit_of))]
fn digit(b: u8) -> u64
    ensures { result ≡ digit_of b }
{
    match b {
        b'0'..=b'9' => u64::from(b - b'0'),
        b'a'..=b'f' => u64::from(b - b'a' + 10),
        _ => 16,
    }
}

fn is_hex(t: &[u8]) -> bool
    ensures { result ≡ is_hex_of t.now }
{
    t.iter().all(|b| digit(*b) < 16)
}

// The digit at place i, or 0 past the end.
#[tactic(auto, unfolding(crate::specs::Number::digit_at_of))]
fn digit_at(t: &[u8], i: usize) -> u64
    ensures { result ≡ digit_at_of t.now i }
{
    match t.get(i) {
        Some(b) => digit(*b),
        None => 0,
    }
}

// Sixteen digits, zeros understood on the right.
fn hex_pad(t: &[u8]) -> u64
    requires { is_hex_of t.now ≡ true }
    ensures { result ≡ hex_pad_of 0 16 t.now }
{
    let mut v: u64 = 0;
    for i in 0..16 {
        v = v * 16 + digit_at(t, i);
    }
    v
}

// The bits of a double: 1 to 16 lower-case hex digits, zeros understood on the right.
#[tactic(auto, unfolding(crate::specs::Number::read_bits_of))]
pub fn read_bits(t: &[u8]) -> Option<u64>
    ensures { result ≡ read_bits_of t.now }
{
    if t.is_empty() || 16 < t.len() || !is_hex(t) {
        return None;
    }
    Some(hex_pad(t))
}

// Whether a 0 stands before another byte.
#[tactic(auto, unfolding(crate::specs::Number::is_led_by_zero_of))]
fn is_led_by_zero(t: &[u8]) -> bool
    ensures { result ≡ is_led_by_zero_of t.now }
{
    1 < t.len() && t[0] == b'0'
}

// A decimal below 2^32 without leading zeros.
pub fn read_whole(t: &[u8]) -> Option<u32>
    ensures { result ≡ read_whole_of t.now }
{
    if t.is_empty() {
        return None;
    }
    if is_led_by_zero(t) {
        return None;
    }
    let mut v: u64 = 0;
    for b in t {
        let d = digit(*b);
        if 10 <= d {
            return None;
        }
        v = v * 10 + d;
        if 0xffff_ffff < v {
            return None;
        }
    }
    Some(v as u32)
}
