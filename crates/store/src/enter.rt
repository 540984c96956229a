// One more exception on the device.
ghost use Rattle.std.specs.Prelude.{◌≡◌, ◌+◌, ◌-◌, ◌/◌, ◌<◌, length};
ghost use Rattle.device.specs.Answers.{told};
ghost use Rattle.device.specs.Plans.{Runs, one};
ghost use Rattle.layout.specs.Chunks.{sectors, per_area};
ghost use Rattle.exceptions.specs.Listed.{listed};
ghost use Rattle.exceptions.specs.Table.{fills_area};
ghost use Rattle.store.specs.Steps.{preparing, entering};

use crate::lasting::write_lasting;
use crate::sectors::area_place;
use crate::shape::area_sector;
use device::{Device, DeviceFault, write_zeros};
use exceptions::{ExceptionTable, fills_area};
use layout::{ChunkSize, ENTRIES, picture};

// Device and size go as two below, as in `sectors`.

// Zeros over the next area where exception number `n` fills its own.
fn prepare<D: Device>(device: &mut D, size: ChunkSize, n: u32) -> Result<(), DeviceFault>
    requires { n < 2048 }
    ensures { Runs one (preparing (fills_area (sectors size) n) (sectors size) (n / per_area (sectors size) + 1)) (D.disk device.old) (told result tt) (D.disk device.new) }
{
    if !fills_area(n, size) {
        return Ok(());
    }
    let next = n / size.entries_per_area() + 1;
    write_zeros(device, area_sector(size, next), size.sectors())
}

// Writes the last exception of a table.
pub(crate) fn enter_last<D: Device>(
    device: &mut D,
    size: ChunkSize,
    table: &ExceptionTable,
) -> Result<(), DeviceFault>
    requires { 0 < length (listed table.now) }
    ensures { Runs one (entering (sectors size) (listed table.now) (length (listed table.now) - 1)) (D.disk device.old) (told result tt) (D.disk device.new) }
{
    let n = table.len() as u32 - 1;
    let j = n / ENTRIES as u32;
    prepare(device, size, n)?;
    device.flush()?;
    let sector = picture(table.as_slice(), j);
    write_lasting(device, area_place(size, j), &sector)
}
