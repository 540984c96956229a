// Zeros after the end of a list.
ghost use Rattle.std.specs.Prelude.{◌≡◌, ◌*◌, [], length};
ghost use Rattle.device.specs.Answers.{told};
ghost use Rattle.device.specs.Plans.{Runs, one};
ghost use Rattle.layout.specs.Chunks.{sectors};
ghost use Rattle.store.specs.Image.{all_zero};
ghost use Rattle.store.specs.Scanning.{ending};
ghost use Rattle.store.specs.Steps.{cleaning};

use crate::lasting::write_lasting;
use crate::shape::area_sector;
use crate::spot::Spot;
use device::{Device, DeviceFault, SECTOR};
use layout::{ENTRIES, ENTRY};

fn is_zero(bytes: &[u8]) -> bool
    ensures { result ≡ all_zero bytes.now }
{
    bytes.iter().all(|b| *b == 0)
}

// Writes zeros from the end entry to the end of its area, where a byte there is not zero.
pub(crate) fn clean<D: Device>(
    device: &mut D,
    end: Spot,
    bytes: &mut [u8],
) -> Result<(), DeviceFault>
    requires { length bytes.old ≡ 512 * sectors end.size }
    ensures { Runs one (cleaning (sectors end.size) (ending [] end.area end.entry bytes.old)) (D.disk device.old) (told result tt) (D.disk device.new) }
{
    let at = ENTRY * end.entry as usize;
    if is_zero(&bytes[at..]) {
        return Ok(());
    }
    bytes[at..].fill(0);
    let sector = end.entry / ENTRIES as u32;
    let from = SECTOR * sector as usize;
    write_lasting(
        device,
        area_sector(end.size, end.area) + sector,
        &bytes[from..],
    )
}
