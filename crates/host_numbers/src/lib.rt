// Refusals and readings in the numbers that hosts get. `refusal` is the documents' number, 0 for none, and `place` the
// list place of what was refused.
#![tactic(auto)]

ghost use Rattle.std.specs.Prelude.{◌≡◌};
ghost use Rattle.error.specs.Refusals.{as_checked};
ghost use Rattle.host_numbers.specs.Numbers.{checked_of, read_of};

use error::Refusal;

#[repr(C)]
#[derive(Clone, Copy)]
pub struct HostChecked {
    pub refusal: u32,
    pub place: u32,
}

// A double, 0 where it is refused.
#[repr(C)]
#[derive(Clone, Copy)]
pub struct HostReading {
    pub refusal: u32,
    pub place: u32,
    pub value: f64,
}

pub fn checked(check: Result<(), Refusal>) -> HostChecked
    ensures { result ≡ checked_of (as_checked check) }
{
    match check {
        Ok(()) => HostChecked {
            refusal: 0,
            place: 0,
        },
        Err(Refusal { error, place }) => HostChecked {
            refusal: error.number(),
            place,
        },
    }
}

pub fn read(reading: Result<f64, Refusal>) -> HostReading
    ensures { result ≡ read_of (as_checked reading) }
{
    match reading {
        Ok(value) => HostReading {
            refusal: 0,
            place: 0,
            value,
        },
        Err(Refusal { error, place }) => HostReading {
            refusal: error.number(),
            place,
            value: 0.0,
        },
    }
}
