// The pixel lines of one map.
ghost use Rattle.std.specs.Prelude.{◌≡◌, ◌<◌};
ghost use Rattle.printing.specs.Printing.{out, put_all};
ghost use Rattle.answer_text.specs.Answer.{pixel_text, pixels_text};

// A pixel's line, unless its flux is zero.
#[tactic(auto, unfolding(crate::specs::Answer::pixel_text, printing::specs::Printing::put_all))]
fn put_pixel(buf: &mut [u8], at: usize, detector: u64, px: u64, py: u64, flux: f64) -> usize
    ensures { out buf.new result ≡ put_all buf.old at (pixel_text detector px py flux) }
{
    if flux != 0.0 {
        let wholes = [detector, px, py];
        let powers = [flux];
        return printing::put_row(buf, at, &wholes, &powers);
    }
    at
}

// The same of the pixels of a map with so many columns, row by row.
pub(crate) fn put_pixels(
    buf: &mut [u8],
    at: usize,
    detector: u64,
    width: usize,
    map: &[f64],
) -> usize
    requires { 0 < width }
    ensures { out buf.new result ≡ put_all buf.old at (pixels_text detector width 0 map.now) }
{
    let mut p = at;
    for (i, &flux) in map.iter().enumerate() {
        p = put_pixel(
            buf,
            p,
            detector,
            (i % width) as u64,
            (i / width) as u64,
            flux,
        );
    }
    p
}
