// Chunks of sectors, and which of them are areas or hold data.
ghost use Rattle.std.specs.Prelude.{◌≡◌};
ghost use Rattle.std.specs.Option.{ok_or};
ghost use Rattle.layout.specs.Chunks.{sectors, chunk_size, per_area, area_chunk, area_start, is_data};

use crate::exception::ENTRIES;

// The sectors of a chunk.
#[derive(Clone, Copy, Debug, PartialEq, Eq)]
pub enum ChunkSize {
    One,
    Two,
    Four,
    Eight,
    Sixteen,
}

// A number of sectors that no chunk has.
#[derive(Clone, Copy, Debug, PartialEq, Eq)]
pub struct NoChunkSize(pub u32);

impl TryFrom<u32> for ChunkSize {
    type Error = NoChunkSize;

    ghost try_from_gives = { λ n r. r ≡ ok_or (chunk_size n) (record { 0 = n }) };

    fn try_from(n: u32) -> Result<Self, NoChunkSize> {
        match n {
            1 => Ok(ChunkSize::One),
            2 => Ok(ChunkSize::Two),
            4 => Ok(ChunkSize::Four),
            8 => Ok(ChunkSize::Eight),
            16 => Ok(ChunkSize::Sixteen),
            _ => Err(NoChunkSize(n)),
        }
    }
}

impl ChunkSize {
    pub fn sectors(self) -> u32
        ensures { result ≡ sectors self }
    {
        match self {
            ChunkSize::One => 1,
            ChunkSize::Two => 2,
            ChunkSize::Four => 4,
            ChunkSize::Eight => 8,
            ChunkSize::Sixteen => 16,
        }
    }

    // How many entries an area has.
    pub fn entries_per_area(self) -> u32
        ensures { result ≡ per_area (sectors self) }
    {
        ENTRIES as u32 * self.sectors()
    }

    // The chunk that is area number `area`.
    pub fn area_chunk(self, area: u32) -> u64
        ensures { result ≡ area_chunk (sectors self) area }
    {
        1 + (u64::from(self.entries_per_area()) + 1) * u64::from(area)
    }

    // The first sector of that area.
    pub fn area_start(self, area: u32) -> u64
        ensures { result ≡ area_start (sectors self) area }
    {
        self.area_chunk(area) * u64::from(self.sectors())
    }

    // Whether a chunk holds data: it is neither the header nor an area.
    pub fn is_data(self, chunk: u64) -> bool
        ensures { result ≡ is_data (sectors self) chunk }
    {
        chunk >= 2 && chunk % (u64::from(self.entries_per_area()) + 1) != 1
    }
}
