// Places of entries.
ghost use Rattle.std.specs.Prelude.{◌<◌};
ghost use Rattle.layout.specs.Chunks.{sectors, per_area};

use layout::ChunkSize;

// Where an entry stands: its area, and its number there. No more areas are ever read.
#[derive(Clone, Copy)]
pub struct Spot {
    pub size: ChunkSize,
    pub area: u32,
    pub entry: u32,
    ghost near: { area < 65 },
    ghost inside: { entry < per_area (sectors size) },
}
