// Lines of numbers: whole numbers first, then doubles, one space between, LF at the end.
ghost use Rattle.std.specs.Prelude.{◌≡◌, ℕ, List};
ghost use Rattle.printing.specs.Printing.{out, put_all, decimal_text, double_text};
ghost use Rattle.printing.specs.Rows.{behind_of, spaced, row_text};

use crate::{put, put_decimal, put_double};

// A number that has a text.
trait Printed {
    ghost text: { Self → List ℕ };

    // Its text at place `at`, and the place after it.
    fn put(self, buf: &mut [u8], at: usize) -> usize
        ensures { out buf.new result ≡ put_all buf.old at (text self) };
}

impl Printed for u64 {
    ghost text = { decimal_text 20 };

    fn put(self, buf: &mut [u8], at: usize) -> usize {
        put_decimal(buf, at, self)
    }
}

impl Printed for f64 {
    ghost text = { double_text };

    fn put(self, buf: &mut [u8], at: usize) -> usize {
        put_double(buf, at, self)
    }
}

// What stands behind number i of n: a space, or `last` behind the last one.
#[tactic(auto, unfolding(crate::specs::Rows::behind_of))]
fn behind(i: usize, n: usize, last: u8) -> u8
    ensures { result ≡ behind_of i n last }
{
    if i < n && i + 1 < n { b' ' } else { last }
}

// Numbers, a space behind each, `last` behind the last one.
fn put_spaced<T: Printed + Copy>(buf: &mut [u8], at: usize, numbers: &[T], last: u8) -> usize
    ensures { out buf.new result ≡ put_all buf.old at (spaced T.text numbers.now last) }
{
    let n = numbers.len();
    let mut p = at;
    for (i, x) in numbers.iter().enumerate() {
        p = x.put(buf, p);
        p = put(buf, p, behind(i, n, last));
    }
    p
}

// A line of at least one number.
#[tactic(auto, using(crate::proofs::Lines::row_wholes, crate::proofs::Lines::row_both))]
pub fn put_row(buf: &mut [u8], at: usize, wholes: &[u64], doubles: &[f64]) -> usize
    ensures { out buf.new result ≡ put_all buf.old at (row_text wholes.now doubles.now) }
{
    if doubles.is_empty() {
        return put_spaced(buf, at, wholes, b'\n');
    }
    let p = put_spaced(buf, at, wholes, b' ');
    put_spaced(buf, p, doubles, b'\n')
}
