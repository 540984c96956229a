// What a table says of its list: the next place, the last run, and the figures for status.
ghost use Rattle.std.specs.Prelude.{◌≡◌, ◌+◌, ◌^◌, ◌<◌, ◌≤◌, map, max, length, IfSome};
ghost use Rattle.std.specs.List.{reduce};
ghost use Rattle.layout.specs.Chunks.{sectors};
ghost use Rattle.exceptions.specs.Table.{entries_at_most, news, next_place, has_room, room, follows, fills_area, linked, last_run, allocated, metadata};
ghost use Rattle.exceptions.specs.Listed.{listed};

use crate::table::ExceptionTable;
use layout::{ChunkSize, Exception};

// Whether the second comes right after the first, in both its numbers.
pub fn follows(a: Exception, b: Exception) -> bool
    ensures { result ≡ follows a b }
{
    a.old.checked_add(1) == Some(b.old) && a.new.checked_add(1) == Some(b.new)
}

// Whether exception number `n` is the last of its area.
pub fn fills_area(n: u32, size: ChunkSize) -> bool
    ensures { result ≡ fills_area (sectors size) n }
{
    let per_area = size.entries_per_area();
    n % per_area == per_area - 1
}

// The largest new chunk of a list, if there is any.
fn largest_new(es: &[Exception]) -> Option<u64>
    ensures { result ≡ reduce max (map news es.now) }
{
    let (first, rest) = es.split_first()?;
    // a fold, since an iterator's own `max` takes half as long again
    Some(rest.iter().fold(first.new, |k, e| k.max(e.new)))
}

// The size of chunks is asked for: a table is made before any size is known, and its store holds both.
impl ExceptionTable {
    // The largest new chunk, if there is any.
    fn largest(&self) -> Option<u64>
        ensures largest { result ≡ reduce max (map news (listed self.now)) }
        ensures small { IfSome result (λ k. k < 2 ^ 32) }
    {
        largest_new(self.as_slice())
    }

    // The first data chunk after the largest new one, be it on the device or not.
    fn place(&self, size: ChunkSize) -> u64
        ensures place { result ≡ next_place (sectors size) (listed self.now) }
        ensures small { result ≤ 2 ^ 32 + 1 }
    {
        let Some(largest) = self.largest() else {
            return 2;
        };
        let next = largest + 1;
        if size.is_data(next) { next } else { next + 1 }
    }

    // Whether one more may be entered at a place, on a device of so many chunks.
    fn may_enter(&self, place: u64, size: ChunkSize, chunks: u64) -> bool
        ensures { result ≡ has_room entries_at_most (sectors size) chunks (length (listed self.now)) place }
    {
        let n = self.len() as u32;
        let next_area = size.area_chunk(n / size.entries_per_area() + 1);
        place < chunks && !(fills_area(n, size) && next_area >= chunks) && !self.is_full()
    }

    // The next place on a device of so many chunks, or nothing where an exception has no room.
    pub fn next_place(&self, size: ChunkSize, chunks: u64) -> Option<u64>
        ensures { result ≡ room entries_at_most (sectors size) chunks (listed self.now) }
    {
        let place = self.place(size);
        self.may_enter(place, size, chunks).then_some(place)
    }

    // Whether the exceptions at `n` and `n + 1` are in one run.
    fn linked(&self, n: usize, size: ChunkSize) -> bool
        requires { n + 1 < length (listed self.now) }
        ensures { result ≡ linked (sectors size) (listed self.now) n }
    {
        let per_area = size.entries_per_area() as usize;
        let es = self.as_slice();
        n / per_area == (n + 1) / per_area && follows(es[n], es[n + 1])
    }

    // How many exceptions the last run has.
    pub fn last_run(&self, size: ChunkSize) -> usize
        ensures run { result ≡ last_run (sectors size) (listed self.now) }
        ensures within { result ≤ length (listed self.now) }
        ensures some { 0 < length (listed self.now) → 0 < result }
    {
        let Some(last) = self.len().checked_sub(1) else {
            return 0;
        };
        let before = (0..last).rev().take_while(|&n| self.linked(n, size));
        before.count() + 1
    }

    // Sectors up to the next place, even past the device.
    pub fn allocated(&self, size: ChunkSize) -> u64
        ensures { result ≡ allocated (sectors size) (listed self.now) }
    {
        self.place(size) * u64::from(size.sectors())
    }

    // Sectors of the header and of the areas, of which there is always one.
    pub fn metadata(&self, size: ChunkSize) -> u64
        ensures { result ≡ metadata (sectors size) (length (listed self.now)) }
    {
        let areas = (self.len() as u32).div_ceil(size.entries_per_area()).max(1);
        u64::from((1 + areas) * size.sectors())
    }
}
