// The scene: four blocks, read once to see that all is well formed and once more to fill the slices.
ghost use Rattle.std.specs.Prelude.{◌≡◌, true, ◌+◌, ◌≤◌, length};
ghost use Rattle.fields.specs.Split.{split};
ghost use Rattle.scene_text.specs.Names.{solid_names, solid_form, detector_names, detector_form, ray_names, max_text};
ghost use Rattle.scene_text.specs.Blocks.{read_names_of, read_lines_of};
ghost use Rattle.scene_text.specs.Steps.{table, rest_at, onto, reading};
ghost use Rattle.scene_text.specs.Scene.{read_run_of, contents_in, told, slices, doubles_in, wholes_in, filled_with, refusal_at, answer_of, read_scene_of, check_text_of};

use crate::blocks::{Found, read_lines, read_names, read_one};
use error::{NonSeqError, Refusal};

// The most bytes of a scene text (else 17).
pub const MAX_TEXT: usize = 65536;

// How many lines of values the blocks of a scene text have.
#[derive(Clone, Copy)]
pub struct Counts {
    pub solids: u32,
    pub detectors: u32,
    pub rays: u32,
}

// The run's block and the line of names behind it.
fn read_run(s: &[u8], run_values: &mut [f64], run_tags: &mut [u32]) -> Found
    requires { length s.now ≤ max_text }
    ensures fact { let b = read_run_of (split 10 s.now) in let c = read_names_of solid_names b.rest b.line in
        (run_values.new ≡ doubles_in run_values.old b) × (run_tags.new ≡ wholes_in run_tags.old b)
        × (result.ok ≡ c.ok) × (result.line ≡ c.line) × (rest_at result.ok s.now result.at ≡ c.rest) }
    ensures at_in_bounds { (result.at ≤ length s.now) × (result.line ≤ result.at + 1) }
{
    let start = Found {
        more: true,
        ok: true,
        at: 0,
        line: 1,
        rows: 0,
        nd: 0,
        nw: 0,
    };
    let a = read_names(s, start, b"threshold bounces filter ambient a b c d e f\n");
    let b = read_one(s, a, b"d n f 4 d d d d d d\n", run_values, run_tags);
    read_names(
        s,
        b,
        b"shape p q r active finish rho medium a b c d e f m w\n",
    )
}

fn read_solids(s: &[u8], from: Found, d: &mut [f64], w: &mut [u32]) -> Found
    requires { (length s.now ≤ max_text) × (from.at ≤ length s.now) × (from.line ≤ from.at + 1) }
    ensures at_after { reading result.ok result.line result.rows (table result.ok d.new result.nd w.new result.nw) (rest_at result.ok s.now result.at)
        ≡ onto 0 (table true d.old 0 w.old 0) (read_lines_of detector_names solid_form (rest_at from.ok s.now from.at) from.line) }
    ensures at_in_bounds { (result.at ≤ length s.now) × (result.line ≤ result.at + 1) }
{
    read_lines(
        s,
        from,
        b"cx cy cz nx ny nz ux uy uz width height resx resy\n",
        b"6 d d d 2 3 d 4 d d d d d d d,d,d,d,d,d,d,d,d,d,d,d,d,d,d,d d,d,d,d,d,d,d,d,d,d,d,d,d,d,d,d\n",
        d,
        w,
    )
}

fn read_detectors(s: &[u8], from: Found, d: &mut [f64], w: &mut [u32]) -> Found
    requires { (length s.now ≤ max_text) × (from.at ≤ length s.now) × (from.line ≤ from.at + 1) }
    ensures at_after { reading result.ok result.line result.rows (table result.ok d.new result.nd w.new result.nw) (rest_at result.ok s.now result.at)
        ≡ onto 0 (table true d.old 0 w.old 0) (read_lines_of ray_names detector_form (rest_at from.ok s.now from.at) from.line) }
    ensures at_in_bounds { (result.at ≤ length s.now) × (result.line ≤ result.at + 1) }
{
    read_lines(
        s,
        from,
        b"ox oy oz dx dy dz nm power bounce media\n",
        b"d d d d d d d d d d d n n\n",
        d,
        w,
    )
}

fn refused(place: u32) -> Refusal
    ensures { result ≡ refusal_at place }
{
    Refusal {
        error: NonSeqError::InvalidSceneText,
        place,
    }
}

// The counts of a well formed text, else a refusal with the first bad or missing line.
fn read_blocks(
    s: &[u8],
    run_values: &mut [f64],
    run_tags: &mut [u32],
    solid_values: &mut [f64],
    solid_tags: &mut [u32],
    detector_values: &mut [f64],
    detector_tags: &mut [u32],
    ray_values: &mut [f64],
    ray_tags: &mut [u32],
) -> Result<Counts, Refusal>
    requires { length s.now ≤ max_text }
    ensures rays_value { result ≡ told (check_text_of s.now) }
    ensures ray_tags_after { slices run_values.new run_tags.new solid_values.new solid_tags.new detector_values.new detector_tags.new ray_values.new ray_tags.new
        ≡ filled_with (contents_in s.now) (slices run_values.old run_tags.old solid_values.old solid_tags.old detector_values.old detector_tags.old ray_values.old ray_tags.old) }
{
    let c = read_run(s, run_values, run_tags);
    let d = read_solids(s, c, solid_values, solid_tags);
    let e = read_detectors(s, d, detector_values, detector_tags);
    let f = read_lines(s, e, b"", b"d d d d d d d d n l\n", ray_values, ray_tags);
    if f.ok {
        Ok(Counts {
            solids: d.rows,
            detectors: e.rows,
            rays: f.rows,
        })
    } else {
        Err(refused(f.line))
    }
}

// The same with no slice of the caller's: what does not fit into a slice is dropped, whatever its length.
fn check_text(s: &[u8]) -> Result<Counts, Refusal>
    requires { length s.now ≤ max_text }
    ensures { result ≡ told (check_text_of s.now) }
{
    let mut a = [0.0f64; 1];
    let mut b = [0u32; 1];
    let mut c = [0.0f64; 1];
    let mut d = [0u32; 1];
    let mut e = [0.0f64; 1];
    let mut f = [0u32; 1];
    let mut g = [0.0f64; 1];
    let mut h = [0u32; 1];
    read_blocks(
        s, &mut a, &mut b, &mut c, &mut d, &mut e, &mut f, &mut g, &mut h,
    )
}

// The text of a scene, and how many lines of values its blocks have. Where it is refused, the slices are as they were.
pub fn read_scene(
    text: &[u8],
    run_values: &mut [f64],
    run_tags: &mut [u32],
    solid_values: &mut [f64],
    solid_tags: &mut [u32],
    detector_values: &mut [f64],
    detector_tags: &mut [u32],
    ray_values: &mut [f64],
    ray_tags: &mut [u32],
) -> Result<Counts, Refusal>
    ensures { answer_of result
        (slices run_values.new run_tags.new solid_values.new solid_tags.new detector_values.new detector_tags.new ray_values.new ray_tags.new)
        ≡ read_scene_of text.now (slices run_values.old run_tags.old solid_values.old solid_tags.old detector_values.old detector_tags.old ray_values.old ray_tags.old) }
{
    if MAX_TEXT < text.len() {
        return Err(refused(0));
    }
    check_text(text)?;
    read_blocks(
        text,
        run_values,
        run_tags,
        solid_values,
        solid_tags,
        detector_values,
        detector_tags,
        ray_values,
        ray_tags,
    )
}
