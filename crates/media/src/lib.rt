// The media that a ray is inside of (document 01, "How a ray lives"), after trace.rs's medium_stack: the
// numbers of solids, the newest last.
#![tactic(auto)]

ghost use Rattle.std.specs.Prelude.{◌≡◌, ◌-◌, ◌≤◌, ◌<◌};
ghost use Rattle.media.specs.Media.{newest_of, entered_of, last_place_of, move_down_of, left_of, max_media};

use scene::SolidNo;

// Places for the media of a ray.
pub const MAX_MEDIA: usize = 24;

// The first `depth` of the places are used: an array with a depth beside it, since nothing is on the heap.
#[derive(Clone, Copy)]
pub struct Media {
    pub list: [SolidNo; MAX_MEDIA],
    pub depth: u32,
}

// The last of the first `depth` places that holds a solid.
fn last_place(list: [SolidNo; MAX_MEDIA], depth: usize, solid: SolidNo) -> Option<usize>
    requires { depth ≤ max_media }
    ensures { result ≡ last_place_of list depth solid }
{
    for i in (0..depth).rev() {
        if list[i].0 == solid.0 {
            return Some(i);
        }
    }
    None
}

// The places from `at` to `end`, each with what stood in the next.
fn move_down(list: [SolidNo; MAX_MEDIA], at: usize, end: usize) -> [SolidNo; MAX_MEDIA]
    requires { end < max_media }
    ensures { result ≡ move_down_of (end - at) at list }
{
    let mut r = list;
    for i in at..end {
        r[i] = r[i + 1];
    }
    r
}

impl Media {
    // The most places.
    pub const MAX: u32 = MAX_MEDIA as u32;

    #[tactic(auto, unfolding(crate::specs::Media::newest_of))]
    pub fn newest(self) -> Option<SolidNo>
        ensures { result ≡ newest_of self }
    {
        let list = self.list;
        if 0 < self.depth {
            if self.depth <= Media::MAX {
                let at = self.depth as usize - 1;
                let s = list[at];
                return Some(s);
            }
        }
        None
    }

    // With a solid appended.
    #[tactic(auto, unfolding(crate::specs::Media::entered_of))]
    pub fn entered(self, solid: SolidNo) -> Media
        ensures { result ≡ entered_of self solid }
    {
        if self.depth < Media::MAX {
            let mut list = self.list;
            let at = self.depth as usize;
            list[at] = solid;
            return Media {
                list,
                depth: self.depth + 1,
            };
        }
        self
    }

    // Without the last place that holds a solid, if there is one.
    #[tactic(auto, using(crate::proofs::Places::found_below), unfolding(crate::specs::Media::left_of, crate::specs::Media::without_place))]
    pub fn left(self, solid: SolidNo) -> Media
        ensures { result ≡ left_of self solid }
    {
        if self.depth <= Media::MAX {
            let list = self.list;
            let depth = self.depth as usize;
            return match last_place(list, depth, solid) {
                Some(i) => Media {
                    list: move_down(list, i, depth - 1),
                    depth: self.depth - 1,
                },
                None => self,
            };
        }
        self
    }
}
