// From a scene text to its answer (document 01, `straymap`).
ghost use Rattle.std.specs.Prelude.{◌≡◌};
ghost use Rattle.printing.specs.Printing.{out, put_all};
ghost use Rattle.map_text.specs.StrayMap.{stray_map_text};

use crate::parts::{RUN_DOUBLES, RUN_WHOLES};
use given_rays::{GivenRays, RAY_ROOM_DOUBLES, RAY_ROOM_WHOLES};
use scene::Solids;

const SOLID_ROOM_DOUBLES: usize = crate::parts::SOLID_ROOM as usize * scene::SOLID_DOUBLES;

const SOLID_ROOM_WHOLES: usize = crate::parts::SOLID_ROOM as usize * scene::SOLID_WHOLES;

const DETECTORS_DOUBLES: usize = detectors::MAX_DETECTORS * crate::parts::DETECTOR_DOUBLES;

const DETECTORS_WHOLES: usize = detectors::MAX_DETECTORS * crate::parts::DETECTOR_WHOLES;

// The answer to a text, or its refusal, written from place `at` on; what has no place is dropped.
pub fn put_stray_map(buf: &mut [u8], at: usize, text: &[u8]) -> usize
    ensures { out buf.new result ≡ put_all buf.old at (stray_map_text text.now) }
{
    let mut run_values = [0.0f64; RUN_DOUBLES];
    let mut run_tags = [0u32; RUN_WHOLES];
    let mut solid_values = [0.0f64; SOLID_ROOM_DOUBLES];
    let mut solid_tags = [0u32; SOLID_ROOM_WHOLES];
    let mut detector_values = [0.0f64; DETECTORS_DOUBLES];
    let mut detector_tags = [0u32; DETECTORS_WHOLES];
    let mut ray_values = [0.0f64; RAY_ROOM_DOUBLES];
    let mut ray_tags = [0u32; RAY_ROOM_WHOLES];
    let r = scene_text::read_scene(
        text,
        &mut run_values,
        &mut run_tags,
        &mut solid_values,
        &mut solid_tags,
        &mut detector_values,
        &mut detector_tags,
        &mut ray_values,
        &mut ray_tags,
    );
    match r {
        Err(refusal) => { answer_text::put_refusal(buf, at, refusal.error.number(), refusal.place) }
        Ok(counts) => crate::mapping::put_map(
            buf,
            at,
            &run_values,
            &run_tags,
            Solids {
                values: &solid_values,
                tags: &solid_tags,
                count: counts.solids,
            },
            &detector_values,
            &detector_tags,
            counts.detectors,
            GivenRays {
                values: &ray_values,
                tags: &ray_tags,
                count: counts.rays,
            },
        ),
    }
}
