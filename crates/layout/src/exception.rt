// Exceptions, and their entries of 16 bytes.
ghost use Rattle.std.specs.Prelude.{◌≡◌};
ghost use Rattle.layout.specs.Entries.{entry, entry_from};

use crate::number::field;
use device::SECTOR;

// the bytes of an entry
pub const ENTRY: usize = 16;

// the entries of a sector
pub const ENTRIES: usize = SECTOR / ENTRY;

// The chunk `old` of the origin has its copy in the chunk `new` of the COW device.
#[derive(Clone, Copy, PartialEq, Eq, Debug)]
pub struct Exception {
    pub old: u64,
    pub new: u64,
}

impl Exception {
    pub(crate) fn to_bytes(self) -> [u8; ENTRY]
        ensures { result ≡ entry self }
    {
        let mut out = [0u8; ENTRY];
        out[..8].copy_from_slice(&self.old.to_le_bytes());
        out[8..].copy_from_slice(&self.new.to_le_bytes());
        out
    }

    pub(crate) fn from_bytes(bytes: &[u8; ENTRY]) -> Self
        ensures { result ≡ entry_from bytes.now 0 }
    {
        Exception {
            old: u64::from_le_bytes(field(bytes, 0)),
            new: u64::from_le_bytes(field(bytes, 8)),
        }
    }
}
