// The numbers of a store that stay, and which entries fit them.
ghost use Rattle.std.specs.Prelude.{◌≡◌, ◌^◌, ◌<◌, false};
ghost use Rattle.layout.specs.Chunks.{sectors, area_start};
ghost use Rattle.exceptions.specs.Listed.{listed};
ghost use Rattle.store.specs.Judge.{on_data, damaged};

use crate::spot::Spot;
use exceptions::ExceptionTable;
use layout::{ChunkSize, Exception};

// The size of chunks, and how many of them the origin and the COW device have.
#[derive(Clone, Copy)]
pub struct Shape {
    pub size: ChunkSize,
    pub olds: u32,
    pub chunks: u32,
}

impl Shape {
    // Whether a chunk is for data and on the COW device.
    pub(crate) fn on_data(self, chunk: u64) -> bool
        ensures { result ≡ on_data self chunk }
    {
        self.size.is_data(chunk) && chunk < u64::from(self.chunks)
    }

    // Whether the entry at a spot is damaged after those in the table.
    pub(crate) fn is_damaged(self, table: &ExceptionTable, spot: Spot, e: Exception) -> bool
        ensures damaged { result ≡ damaged self spot.area spot.entry (listed table.now) e }
        ensures small { result ≡ false → (e.old < 2 ^ 32) × (e.new < 2 ^ 32) }
    {
        e.old >= u64::from(self.olds)
            || !self.on_data(e.new)
            || table.lookup(e.old).is_some()
            || table.holds_new(e.new)
            || (spot.entry + 1 == self.size.entries_per_area()
                && self.size.area_chunk(spot.area + 1) >= u64::from(self.chunks))
    }
}

// The first sector of an area; all areas that are ever read lie low enough.
pub(crate) fn area_sector(size: ChunkSize, area: u32) -> u32
    requires { area < 66 }
    ensures place { result ≡ area_start (sectors size) area }
    ensures low { result < 2 ^ 24 }
{
    size.area_start(area) as u32
}
