// Sectors that are made to last.
ghost use Rattle.std.specs.Prelude.{◌≡◌};
ghost use Rattle.device.specs.Answers.{told};
ghost use Rattle.device.specs.Plans.{Runs, one, then, writing_from};
ghost use Rattle.store.specs.Steps.{finished, flushing};

use device::{Device, DeviceFault, write_sectors};

// Writes whole sectors and makes them last.
pub(crate) fn write_lasting<D: Device>(
    device: &mut D,
    first: u32,
    bytes: &[u8],
) -> Result<(), DeviceFault>
    ensures { Runs one (then (writing_from first bytes.now) (λ _. flushing finished)) (D.disk device.old) (told result tt) (D.disk device.new) }
{
    write_sectors(device, first, bytes)?;
    device.flush()?;
    Ok(())
}
