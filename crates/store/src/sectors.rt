// The sectors of a store that are written: the header, and sectors of areas.
ghost use Rattle.std.specs.Prelude.{◌≡◌, ◌<◌, length, take};
ghost use Rattle.device.specs.Answers.{told};
ghost use Rattle.device.specs.Plans.{Runs, one};
ghost use Rattle.layout.specs.Chunks.{sectors, area_place};
ghost use Rattle.exceptions.specs.Listed.{listed};
ghost use Rattle.store.specs.Steps.{making, spoiling, dropping};

use crate::lasting::write_lasting;
use crate::shape::area_sector;
use device::{Device, DeviceFault, SECTOR, write_zeros};
use exceptions::ExceptionTable;
use layout::{ChunkSize, ENTRIES, Header, encode_header, picture};

// Device and size go as two below: as methods of `Store`, which has both, each would need one clause more, that the rest stays.

// An empty store: the old header goes first, and the new one comes last.
pub(crate) fn make<D: Device>(device: &mut D, size: ChunkSize) -> Result<(), DeviceFault>
    ensures { Runs one (making (sectors size)) (D.disk device.old) (told result tt) (D.disk device.new) }
{
    device.write(0, &[0u8; SECTOR])?;
    device.flush()?;
    write_zeros(device, area_sector(size, 0), size.sectors())?;
    device.flush()?;
    write_lasting(device, 0, &encode_header(Header { valid: true, size }))
}

// The header says from now on that the snapshot is invalid.
pub(crate) fn spoil<D: Device>(device: &mut D, size: ChunkSize) -> Result<(), DeviceFault>
    ensures { Runs one (spoiling (sectors size)) (D.disk device.old) (told result tt) (D.disk device.new) }
{
    write_lasting(device, 0, &encode_header(Header { valid: false, size }))
}

// Where sector number `j` of all areas' sectors stands.
pub(crate) fn area_place(size: ChunkSize, j: u32) -> u32
    requires { j < 66 }
    ensures { result ≡ area_place (sectors size) j }
{
    area_sector(size, j / size.sectors()) + j % size.sectors()
}

// Turns the list of a table on the device into its first `left` exceptions.
pub(crate) fn drop_to<D: Device>(
    device: &mut D,
    size: ChunkSize,
    table: &ExceptionTable,
    left: usize,
) -> Result<(), DeviceFault>
    requires { left < length (listed table.now) }
    ensures { Runs one (dropping (sectors size) (take left (listed table.now)) (length (listed table.now))) (D.disk device.old) (told result tt) (D.disk device.new) }
{
    let kept = &table.as_slice()[..left];
    let low = (left / ENTRIES) as u32;
    let high = ((table.len() - 1) / ENTRIES + 1) as u32;
    for j in (low..high).rev() {
        device.write(area_place(size, j), &picture(kept, j))?;
    }
    device.flush()?;
    Ok(())
}
