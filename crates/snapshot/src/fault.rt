// Why a pair refuses.
ghost use Rattle.std.specs.Prelude.{◌≡◌};
ghost use Rattle.snapshot.specs.declared.fault.Fault.TheVariants.{Origin as OfOrigin, Store as OfStore, ChunkSize as OfChunkSize};
ghost use Rattle.device.specs.Disk.{refusal};
ghost use Rattle.device.specs.Plans.{origin};
ghost use Rattle.device.specs.Answers.{number, where_at};
ghost use Rattle.store.specs.Answers.{numbers as store_numbers};
ghost use Rattle.history.specs.Faults.{pair_fault, store_fault, store_up, passed_up};
ghost use Rattle.snapshot.specs.Answers.{numbered, numbers};

use device::DeviceFault;
use layout::{HeaderFault, NoChunkSize};
use store::StoreFault;

#[derive(Clone, Copy, Debug, PartialEq, Eq)]
pub enum Fault {
    // the origin's own
    Origin(DeviceFault),
    // the store's, or its COW device's
    Store(StoreFault),
    // a buffer has the wrong length
    Length,
    // this sector is not on the origin
    Sector(u32),
    // the call is for a pair in another state
    State,
    // a device of the pair is gone
    Stopped,
    // the snapshot has become invalid
    Invalid,
    // no chunk has so many sectors
    ChunkSize(u32),
    // the devices do not fit the chunks
    Misshaped,
}

// A refusal in numbers: which one; the layer that refuses (1 device, 2 store, 3 pair); the device (0 none, 1 origin, 2 COW); the
// place; and the entry within that area.
#[derive(Clone, Copy, Debug, PartialEq, Eq)]
pub struct FaultNumbers {
    pub number: u32,
    pub layer: u32,
    pub device: u32,
    pub place: u64,
    pub entry: u32,
}

impl Fault {
    // The numbers of a refusal.
    pub fn numbers(self) -> FaultNumbers
        ensures { numbered result ≡ numbers self }
    {
        match self {
            Fault::Origin(fault) => of_origin(fault),
            Fault::Store(fault) => of_store(fault),
            Fault::Length => of_pair(1),
            Fault::Sector(sector) => FaultNumbers {
                place: u64::from(sector),
                ..of_pair(2)
            },
            Fault::State => of_pair(4),
            Fault::Stopped => of_pair(5),
            Fault::Invalid => of_pair(6),
            Fault::ChunkSize(_) => of_pair(8),
            Fault::Misshaped => of_pair(9),
        }
    }
}

// A refusal of the pair itself that names no place.
fn of_pair(number: u32) -> FaultNumbers
    ensures { numbered result ≡ pair_fault number }
{
    FaultNumbers {
        number,
        layer: 3,
        device: 0,
        place: 0,
        entry: 0,
    }
}

// A refusal of the origin.
fn of_origin(fault: DeviceFault) -> FaultNumbers
    ensures { numbered result ≡ passed_up origin (refusal (number fault) (where_at fault)) }
{
    let (number, sector) = match fault {
        DeviceFault::Length => (1, 0),
        DeviceFault::Place(sector) => (2, sector),
        DeviceFault::Gone(sector) => (3, sector),
    };
    FaultNumbers {
        number,
        layer: 1,
        device: 1,
        place: u64::from(sector),
        entry: 0,
    }
}

// A refusal of the store's own.
fn in_store(number: u32, place: u64, entry: u32) -> FaultNumbers
    ensures { numbered result ≡ store_fault number place entry }
{
    FaultNumbers {
        number,
        layer: 2,
        device: 2,
        place,
        entry,
    }
}

// A refusal of the store as the pair passes it up: a device that is gone is the COW device, and a misfit is the pair's.
fn of_store(fault: StoreFault) -> FaultNumbers
    ensures { numbered result ≡ store_up (store_numbers fault) }
{
    match fault {
        StoreFault::Device(DeviceFault::Gone(sector)) => FaultNumbers {
            layer: 1,
            ..in_store(3, u64::from(sector), 0)
        },
        StoreFault::Device(DeviceFault::Length) => in_store(1, 0, 0),
        StoreFault::Device(DeviceFault::Place(sector)) => in_store(2, u64::from(sector), 0),
        StoreFault::Head(HeaderFault::Magic) => in_store(10, 0, 0),
        StoreFault::Head(HeaderFault::Version) => in_store(11, 0, 0),
        StoreFault::Head(HeaderFault::Field) => in_store(12, 0, 0),
        StoreFault::Length => in_store(1, 0, 0),
        StoreFault::Chunk(old) => in_store(2, old, 0),
        StoreFault::Sector(sector) => in_store(2, u64::from(sector), 0),
        StoreFault::Full(old) => in_store(7, old, 0),
        StoreFault::Invalid => in_store(6, 0, 0),
        StoreFault::Misshaped => of_pair(9),
        StoreFault::Damaged { area, entry } => in_store(13, u64::from(area), entry),
        StoreFault::TooMany => in_store(14, 0, 0),
    }
}

impl From<DeviceFault> for Fault {
    ghost from_gives = { λ x y. y ≡ OfOrigin x };

    fn from(fault: DeviceFault) -> Fault {
        Fault::Origin(fault)
    }
}

impl From<StoreFault> for Fault {
    ghost from_gives = { λ x y. y ≡ OfStore x };

    fn from(fault: StoreFault) -> Fault {
        Fault::Store(fault)
    }
}

impl From<NoChunkSize> for Fault {
    ghost from_gives = { λ x y. y ≡ OfChunkSize x.0 };

    fn from(fault: NoChunkSize) -> Fault {
        Fault::ChunkSize(fault.0)
    }
}
