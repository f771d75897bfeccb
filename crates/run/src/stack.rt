// The work stack, the newest ray last: 17 rays, taken by value and handed back with each step.
ghost use Rattle.std.specs.Prelude.{◌≡◌, ◌<◌};
ghost use Rattle.step.specs.Rays.{as_step};
ghost use Rattle.given_rays.specs.Given.{rays_given};
ghost use Rattle.run.specs.Stack.{empty_stack_of, load_of, top_at_of, take_of, popped_of, stack_after_of, max_stack};

use given_rays::GivenRays;
use step::{ActiveRay, Step};

// The most rays on the stack. A place below PAIR_ROOM has room for two more.
const MAX_STACK: usize = 17;

const PAIR_ROOM: usize = MAX_STACK - 1;

// An array and a length, since nothing is on the heap.
#[derive(Clone, Copy)]
pub struct Stack {
    pub rays: [ActiveRay; MAX_STACK],
    pub len: usize,
}

// The newest ray, and how many given rays are left.
#[derive(Clone, Copy)]
pub struct Taken {
    pub ray: ActiveRay,
    pub left: u32,
}

// The last given ray that is left.
#[tactic(auto, unfolding(crate::specs::Stack::load_of))]
fn load(left: u32, given: GivenRays<'_>) -> Taken
    ensures { result ≡ load_of (rays_given given.entry) left }
{
    let next = left.saturating_sub(1);
    Taken {
        ray: given.at(next),
        left: next,
    }
}

// Where the newest ray stands; 0 for a stack that holds none.
#[tactic(auto, unfolding(crate::specs::Stack::top_at_of))]
pub(crate) fn top_at(len: usize) -> usize
    ensures { (result ≡ top_at_of len) × (result < max_stack) }
{
    if 0 < len && len <= MAX_STACK {
        return len - 1;
    }
    0
}

// The newest ray: the top of the stack, or else the last given ray that is left.
#[tactic(auto, unfolding(crate::specs::Stack::take_of))]
pub(crate) fn take(top: ActiveRay, len: usize, left: u32, given: GivenRays<'_>) -> Taken
    ensures { result ≡ take_of (rays_given given.entry) top len left }
{
    if 0 < len && len <= MAX_STACK {
        return Taken { ray: top, left };
    }
    load(left, given)
}

impl Stack {
    #[tactic(auto, unfolding(crate::specs::Stack::empty_stack_of))]
    pub fn empty() -> Stack
        ensures { result ≡ empty_stack_of }
    {
        let blank = given_rays::no_ray();
        let rays = [blank; MAX_STACK];
        Stack { rays, len: 0 }
    }

    // After a step of which no ray comes: the newest ray is gone.
    #[tactic(auto, unfolding(crate::specs::Stack::popped))]
    pub(crate) fn popped(self) -> Stack
        ensures { result ≡ popped_of self }
    {
        let rays = self.rays;
        Stack {
            rays,
            len: self.len.saturating_sub(1),
        }
    }

    // The newest ray is gone, the reflected one is pushed, then the transmitted one; a stack without room
    // for both takes neither.
    pub(crate) fn after(self, e: Step) -> Stack
        ensures { result ≡ stack_after_of self (as_step e) }
    {
        let mut rays = self.rays;
        let mut at = self.len.saturating_sub(1);
        if at < PAIR_ROOM {
            if let Some(ray) = e.reflected {
                rays[at] = ray;
                at += 1;
            }
            if let Some(ray) = e.transmitted {
                rays[at] = ray;
                at += 1;
            }
        }
        Stack { rays, len: at }
    }
}
