// Lines of scripts that write the memory: what sets it up, and the calls that write it.
#![tactic(auto)]

pub mod calls;
pub mod set_up;
