// The exceptions on a device, area by area.
ghost use Rattle.std.specs.Prelude.{◌≡◌, ◌*◌, [], length, IfOk};
ghost use Rattle.device.specs.Plans.{Runs, one};
ghost use Rattle.exceptions.specs.Listed.{listed};
ghost use Rattle.store.specs.Answers.{told_spot};
ghost use Rattle.store.specs.Judge.{width};
ghost use Rattle.store.specs.Scanning.{most_areas, scanning};

use crate::fault::StoreFault;
use crate::shape::{Shape, area_sector};
use crate::spot::Spot;
use device::{Device, read_sectors};
use exceptions::ExceptionTable;
use layout::entry_at;

const AREAS: u32 = 65;

// Reads the exceptions into an empty table, and finds the end entry; `bytes` is for one area.
pub(crate) fn scan<D: Device>(
    device: &mut D,
    table: &mut ExceptionTable,
    shape: Shape,
    bytes: &mut [u8],
) -> Result<Spot, StoreFault>
    requires area { length bytes.old ≡ 512 * width shape }
    requires empty { listed table.old ≡ [] }
    ensures call { Runs one (scanning shape most_areas 0 []) (D.disk device.old) (told_spot result (listed table.new) bytes.new) (D.disk device.new) }
    ensures size { IfOk result (λ end. end.size ≡ shape.size) }
{
    let size = shape.size;
    let mut end = None;
    // a rule of the project: nested loops, left by a label at the end entry
    'areas: for area in 0..AREAS {
        read_sectors(device, area_sector(size, area), bytes)?;
        for entry in 0..size.entries_per_area() {
            let spot = Spot { size, area, entry };
            let e = entry_at(bytes, entry);
            if e.new == 0 {
                end = Some(spot);
                break 'areas;
            }
            if table.is_full() {
                return Err(StoreFault::TooMany);
            }
            if shape.is_damaged(table, spot, e) {
                return Err(StoreFault::Damaged { area, entry });
            }
            table.push(e).unwrap();
        }
    }
    end.ok_or(StoreFault::TooMany)
}
