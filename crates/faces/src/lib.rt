// The faces of all detectors, worked out once a call, and the nearest detector that a ray crosses
// (document 01, "How a ray lives"), after trace.rs.
#![tactic(auto)]

ghost use Rattle.std.specs.Prelude.{◌≡◌, ◌≤◌};
ghost use Rattle.nearest.specs.Nearest.{distance_of, nearer_of};
ghost use Rattle.detector.specs.Faces.{face_intersect_ray_of};
ghost use Rattle.faces.specs.declared.Sight.{Sight};
ghost use Rattle.faces.specs.Faces.{new_faces_of, sight_distance, sight_from, seen_of, face_count_of, nearest_detector_of};
ghost use Rattle.detectors.specs.Detectors.{max_detectors};

use detector::{Crossing, DetectorNo, Face};
use detectors::{Detectors, MAX_DETECTORS};
use rays::Ray;

// An array and a count, since nothing is on the heap.
#[derive(Clone, Copy)]
pub struct Faces {
    pub list: [Face; MAX_DETECTORS],
    pub count: u32,
}

// Where a ray crosses which detector.
#[derive(Clone, Copy)]
pub struct Sight {
    pub detector: DetectorNo,
    pub crossing: Crossing,
}

// Infinite for nothing.
fn distance(best: Option<Sight>) -> f64
    ensures { result ≡ distance_of Sight sight_distance best }
{
    match best {
        Some(s) => s.crossing.t,
        None => doubles::infinity(),
    }
}

// The best so far, or the crossing of detector i.
#[tactic(auto, using(crate::proofs::Sights::missed, crate::proofs::Sights::nearer_seen, crate::proofs::Sights::farther))]
fn nearer(face: Face, i: u32, ray: Ray, best: Option<Sight>) -> Option<Sight>
    ensures { result ≡ nearer_of Sight sight_distance best (sight_from i (face_intersect_ray_of face ray)) }
{
    if let Some(crossing) = face.intersect_ray(ray) {
        if nearest::is_nearer(crossing.t, distance(best)) {
            return Some(Sight {
                detector: DetectorNo(i),
                crossing,
            });
        }
    }
    best
}

// The best so far, or the crossing of detector i if that is one of the first n.
#[tactic(auto, unfolding(crate::specs::Faces::seen_of, crate::specs::Faces::sight_from))]
fn seen(face: Face, i: u32, n: u32, ray: Ray, best: Option<Sight>) -> Option<Sight>
    ensures { result ≡ seen_of i n best (sight_from i (face_intersect_ray_of face ray)) }
{
    if i < n {
        return nearer(face, i, ray, best);
    }
    best
}

// At most the 8 that the list has.
#[tactic(auto, unfolding(crate::specs::Faces::face_count_of))]
fn face_count(count: u32) -> u32
    ensures { (result ≡ face_count_of count) × (result ≤ max_detectors) }
{
    if count <= Detectors::MAX {
        return count;
    }
    Detectors::MAX
}

impl Faces {
    #[tactic(auto, unfolding(crate::specs::Faces::new_faces_of))]
    pub fn new(detectors: Detectors) -> Faces
        ensures { result ≡ new_faces_of detectors }
    {
        let l = detectors.list;
        let d0 = l[0];
        let d1 = l[1];
        let d2 = l[2];
        let d3 = l[3];
        let d4 = l[4];
        let d5 = l[5];
        let d6 = l[6];
        let d7 = l[7];
        Faces {
            list: [
                d0.face(),
                d1.face(),
                d2.face(),
                d3.face(),
                d4.face(),
                d5.face(),
                d6.face(),
                d7.face(),
            ],
            count: detectors.count,
        }
    }

    // The nearest detector that a ray crosses; the first listed wins ties. Written out eight times, so that
    // each face is read where it stands: as a loop, by value or by reference, a tracing had 3 in 100 more instructions.
    #[tactic(auto, using(crate::proofs::Written::written_out), unfolding(crate::specs::Faces::nearest_detector_of))]
    pub fn nearest_detector(self, ray: Ray) -> Option<Sight>
        ensures { result ≡ nearest_detector_of self ray }
    {
        let list = self.list;
        let n = face_count(self.count);
        let f0 = list[0];
        let f1 = list[1];
        let f2 = list[2];
        let f3 = list[3];
        let f4 = list[4];
        let f5 = list[5];
        let f6 = list[6];
        let f7 = list[7];
        let s0 = seen(f0, 0, n, ray, None);
        let s1 = seen(f1, 1, n, ray, s0);
        let s2 = seen(f2, 2, n, ray, s1);
        let s3 = seen(f3, 3, n, ray, s2);
        let s4 = seen(f4, 4, n, ray, s3);
        let s5 = seen(f5, 5, n, ray, s4);
        let s6 = seen(f6, 6, n, ray, s5);
        seen(f7, 7, n, ray, s6)
    }
}
