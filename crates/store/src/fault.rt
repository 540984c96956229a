// Why a store refuses.
ghost use Rattle.std.specs.Prelude.{◌≡◌};
ghost use Rattle.store.specs.declared.fault.StoreFault.TheVariants.{Device as OfDevice, Head as OfHeader};

use device::DeviceFault;
use layout::HeaderFault;

#[derive(Clone, Copy, Debug, PartialEq, Eq)]
pub enum StoreFault {
    // the COW device's own
    Device(DeviceFault),
    // the first sector is no header
    Head(HeaderFault),
    // a buffer has the wrong length
    Length,
    // this old chunk has a copy already, or the origin lacks it; or it is no data chunk on the device
    Chunk(u64),
    // this sector is in no data chunk
    Sector(u32),
    // there is no place for a copy of this old chunk
    Full(u64),
    // the header says that the snapshot is invalid
    Invalid,
    // the devices do not fit the chunks
    Misshaped,
    // an entry, by its area and its number there, cannot be what a store wrote
    Damaged { area: u32, entry: u32 },
    // there are more entries than a store holds
    TooMany,
}

impl From<DeviceFault> for StoreFault {
    ghost from_gives = { λ x y. y ≡ OfDevice x };

    fn from(fault: DeviceFault) -> StoreFault {
        StoreFault::Device(fault)
    }
}

impl From<HeaderFault> for StoreFault {
    ghost from_gives = { λ x y. y ≡ OfHeader x };

    fn from(fault: HeaderFault) -> StoreFault {
        StoreFault::Head(fault)
    }
}
