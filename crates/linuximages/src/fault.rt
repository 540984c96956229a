// Refusals of a store in words, with their numbers.
ghost use Rattle.std.specs.Prelude.{◌≡◌};
ghost use Rattle.store.specs.Answers.{numbers};

use device::DeviceFault;
use layout::HeaderFault;
use std::fmt;
use store::StoreFault;

#[derive(Drop)]
pub struct Fault(pub StoreFault);

// A rule of the project: a refusal is known by its number, and the lines that are printed show it.
fn number(fault: StoreFault) -> u32
    ensures { result ≡ (numbers fault).number }
{
    match fault {
        StoreFault::Device(DeviceFault::Length) | StoreFault::Length => 1,
        StoreFault::Device(DeviceFault::Place(_)) => 2,
        StoreFault::Chunk(_) | StoreFault::Sector(_) => 2,
        StoreFault::Device(DeviceFault::Gone(_)) => 3,
        StoreFault::Invalid => 6,
        StoreFault::Full(_) => 7,
        StoreFault::Misshaped => 9,
        StoreFault::Head(HeaderFault::Magic) => 10,
        StoreFault::Head(HeaderFault::Version) => 11,
        StoreFault::Head(HeaderFault::Field) => 12,
        StoreFault::Damaged { .. } => 13,
        StoreFault::TooMany => 14,
    }
}

fn words(fault: StoreFault) -> &'static str {
    match fault {
        StoreFault::Device(DeviceFault::Length) | StoreFault::Length => "wrong length",
        StoreFault::Device(DeviceFault::Place(_)) => "no such sector",
        StoreFault::Chunk(_) => "no chunk to enter",
        StoreFault::Sector(_) => "no sector of a data chunk",
        StoreFault::Device(DeviceFault::Gone(_)) => "the device is gone",
        StoreFault::Invalid => "the snapshot is invalid",
        StoreFault::Full(_) => "no place is left",
        StoreFault::Misshaped => "the devices do not fit the chunks",
        StoreFault::Head(HeaderFault::Magic) => "no magic",
        StoreFault::Head(HeaderFault::Version) => "another version",
        StoreFault::Head(HeaderFault::Field) => "the header has a wrong field",
        StoreFault::Damaged { .. } => "an entry is damaged",
        StoreFault::TooMany => "too many entries",
    }
}

impl fmt::Display for Fault {
    fn fmt<W: fmt::Write>(&self, f: &mut fmt::Formatter<W>) -> fmt::Result {
        let number = number(self.0);
        let words = words(self.0);
        write!(f, "{words} ({number})")
    }
}
