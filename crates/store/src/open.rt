// Opening what stands on a device.
ghost use Rattle.std.specs.Prelude.{◌≡◌, ◌*◌, [], length};
ghost use Rattle.device.specs.Disk.{good};
ghost use Rattle.device.specs.Plans.{Runs, one};
ghost use Rattle.exceptions.specs.Listed.{listed};
ghost use Rattle.store.specs.Answers.{told, gave};
ghost use Rattle.store.specs.Image.{header_judged};
ghost use Rattle.store.specs.Judge.{width};
ghost use Rattle.store.specs.Steps.{loading, heading};

use crate::clean::clean;
use crate::fault::StoreFault;
use crate::scan::scan;
use crate::shape::Shape;
use device::{Device, SECTOR};
use exceptions::ExceptionTable;
use layout::{ChunkSize, Header, decode_header};

// Whether the devices fit the header's chunks, and then whether it is valid.
fn judge_header(header: Header, origin: u32, cow: u32) -> Result<ChunkSize, StoreFault>
    ensures { gave result ≡ header_judged (record { origin = origin; cow = cow }) (good header) }
{
    let c = header.size.sectors();
    if origin % c != 0 || cow / c < 3 {
        return Err(StoreFault::Misshaped);
    }
    if !header.valid {
        return Err(StoreFault::Invalid);
    }
    Ok(header.size)
}

// The size of chunks by the header, over an origin of so many sectors.
pub(crate) fn read_header<D: Device>(device: &mut D, origin: u32) -> Result<ChunkSize, StoreFault>
    ensures { Runs one (heading (record { origin = origin; cow = (D.disk device.old).count })) (D.disk device.old) (gave result) (D.disk device.new) }
{
    let cow = device.sectors();
    let mut sector = [0u8; SECTOR];
    device.read(0, &mut sector)?;
    let header = decode_header(&sector)?;
    judge_header(header, origin, cow)
}

// The exceptions into an empty table, and zeros after their end. `bytes`, here and in what it calls, is the part of the work buffer
// for one area; a type for it would hold the buffer by `&mut`, and clauses would speak of that reference.
pub(crate) fn load<D: Device>(
    device: &mut D,
    table: &mut ExceptionTable,
    shape: Shape,
    bytes: &mut [u8],
) -> Result<(), StoreFault>
    requires area { length bytes.old ≡ 512 * width shape }
    requires empty { listed table.old ≡ [] }
    ensures { Runs one (loading shape) (D.disk device.old) (told result (listed table.new)) (D.disk device.new) }
{
    let end = scan(device, table, shape, bytes)?;
    clean(device, end, bytes)?;
    Ok(())
}
