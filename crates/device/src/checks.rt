// The tests that a read or a write makes first, in their order.
ghost use Rattle.std.specs.Prelude.{◌≡◌};
ghost use Rattle.device.specs.Answers.{told, sector_test};

use crate::fault::DeviceFault;

// the bytes of a sector
pub const SECTOR: usize = 512;

// Whether so many bytes are a sector, and this sector is one of so many.
pub fn check_sector(len: usize, sector: u32, sectors: u32) -> Result<(), DeviceFault>
    ensures { told result tt ≡ sector_test len sector sectors }
{
    if len != SECTOR {
        return Err(DeviceFault::Length);
    }
    if sector >= sectors {
        return Err(DeviceFault::Place(sector));
    }
    Ok(())
}
