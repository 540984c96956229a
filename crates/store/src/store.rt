// A store of exceptions over any device.
ghost use Rattle.std.specs.Prelude.{◌≡◌, ◌+◌, ◌*◌, ◌/◌, ◌≤◌, [], length, IfOk, if◌then◌else◌, MatchResult, OnErr};
ghost use Rattle.device.specs.Disk.{good, refused};
ghost use Rattle.device.specs.Plans.{Runs, one, lifted};
ghost use Rattle.layout.specs.Chunks.{sectors};
ghost use Rattle.layout.specs.declared.chunk.ChunkSize.TheVariants.{One as Smallest};
ghost use Rattle.exceptions.specs.Listed.{listed};
ghost use Rattle.exceptions.specs.Table.{entries_at_most, lookup, room, last_run, allocated, metadata};
ghost use Rattle.store.specs.Answers.{told, gave};
ghost use Rattle.store.specs.Judge.{on_data};
ghost use Rattle.store.specs.Refusals.{because, up};
ghost use Rattle.store.specs.Steps.{shape_heading, opening, finished, flushing, making, spoiling, shaped, in_chunks, enter, drop_run, data_test, data_read, data_write, copy_read, copy_write, chunk_read, chunk_write};
ghost use Rattle.store.specs.Work.{spent};

use crate::enter::enter_last;
use crate::fault::StoreFault;
use crate::open::{load, read_header};
use crate::sectors::{drop_to, make, spoil};
use crate::shape::Shape;
use crate::work::Work;
use device::{Device, SECTOR, read_sectors, write_sectors};
use exceptions::ExceptionTable;
use layout::{ChunkSize, Exception};

// the bytes that opening works in
pub const WORK: usize = 8192;

// The COW device, the size of its chunks, and its exceptions. The last two mean something once the store was made or opened.
#[derive(Drop)]
pub struct Store<C> {
    cow: C,
    size: ChunkSize,
    table: ExceptionTable,
}

impl<C: Device> Store<C> {
    // A store over a device that has not been looked at yet.
    pub fn new(cow: C, mut table: ExceptionTable) -> Store<C>
        ensures cow { result.cow ≡ cow }
        ensures size { result.size ≡ Smallest }
        ensures table { listed result.table ≡ [] }
    {
        table.clear();
        Store {
            cow,
            size: ChunkSize::One,
            table,
        }
    }

    // The COW device, and the table's memory for another store.
    pub fn into_parts(self) -> (C, ExceptionTable)
        ensures cow { result.0 ≡ self.cow }
        ensures table { result.1 ≡ self.table }
    {
        (self.cow, self.table)
    }

    // Makes an empty store with chunks of a size.
    pub fn make(&mut self, size: ChunkSize) -> Result<(), StoreFault>
        ensures call { Runs one (lifted up (making (sectors size))) (C.disk self.old.cow) (told result tt) (C.disk self.new.cow) }
        ensures size { MatchResult result (λ _. self.new.size ≡ size) (λ _. self.new.size ≡ self.old.size) }
        ensures table { MatchResult result (λ _. listed self.new.table ≡ []) (λ _. listed self.new.table ≡ listed self.old.table) }
    {
        make(&mut self.cow, size)?;
        self.size = size;
        self.table.clear();
        Ok(())
    }

    // Opens what stands on the device, for an origin of so many sectors; the work buffer is `WORK` bytes, and zeros again afterwards.
    pub fn open(&mut self, origin: u32, work: &mut [u8]) -> Result<(), StoreFault>
        ensures call { Runs one (opening (record { origin = origin; cow = (C.disk self.old.cow).count }) (length work.old)) (C.disk self.old.cow) (told result (record { size = self.new.size; table = (listed self.new.table) })) (C.disk self.new.cow) }
        ensures size { OnErr result (self.new.size ≡ self.old.size) }
        ensures table { OnErr result (listed self.new.table ≡ []) }
        ensures work { work.new ≡ spent work.old }
    {
        self.table.clear();
        if work.len() != WORK {
            return Err(StoreFault::Length);
        }
        let guard = Work { bytes: work };
        self.open_in(origin, guard.bytes)
    }

    // Opens into an empty table, in a work buffer of the right length.
    fn open_in(&mut self, origin: u32, work: &mut [u8]) -> Result<(), StoreFault>
        requires whole { length work.old ≡ 8192 }
        requires empty { listed self.old.table ≡ [] }
        ensures call { Runs one (opening (record { origin = origin; cow = (C.disk self.old.cow).count }) 8192) (C.disk self.old.cow) (told result (record { size = self.new.size; table = (listed self.new.table) })) (C.disk self.new.cow) }
        ensures size { OnErr result (self.new.size ≡ self.old.size) }
        ensures table { OnErr result (listed self.new.table ≡ []) }
    {
        let shape = self.read_shape(origin)?;
        let area = SECTOR * shape.size.sectors() as usize;
        if let Err(fault) = load(&mut self.cow, &mut self.table, shape, &mut work[..area]) {
            self.table.clear();
            return Err(fault);
        }
        self.size = shape.size;
        Ok(())
    }

    // The numbers of a store by its header.
    fn read_shape(&mut self, origin: u32) -> Result<Shape, StoreFault>
        ensures call { Runs one (shape_heading (record { origin = origin; cow = (C.disk self.old.cow).count })) (C.disk self.old.cow) (gave result) (C.disk self.new.cow) }
        ensures rest { self.new ≡ record self.old { cow = self.new.cow } }
    {
        let cow = self.cow.sectors();
        let size = read_header(&mut self.cow, origin)?;
        Ok(Shape {
            size,
            olds: origin / size.sectors(),
            chunks: cow / size.sectors(),
        })
    }

    // The header says from now on that the snapshot is invalid.
    pub fn spoil(&mut self) -> Result<(), StoreFault>
        ensures call { Runs one (lifted up (spoiling (sectors self.old.size))) (C.disk self.old.cow) (told result tt) (C.disk self.new.cow) }
        ensures rest { self.new ≡ record self.old { cow = self.new.cow } }
    {
        spoil(&mut self.cow, self.size)?;
        Ok(())
    }

    // Whether the COW device is on.
    pub fn is_on(&self) -> bool
        ensures { result ≡ (C.disk self.now.cow).on }
    {
        self.cow.is_on()
    }

    // The sectors of the COW device.
    pub fn sectors(&self) -> u32
        ensures { result ≡ (C.disk self.now.cow).count }
    {
        self.cow.sectors()
    }

    pub fn size(&self) -> ChunkSize
        ensures { result ≡ self.now.size }
    {
        self.size
    }

    pub fn exceptions(&self) -> &[Exception]
        ensures { result.now ≡ listed self.now.table }
    {
        self.table.as_slice()
    }

    // The chunk that has the copy of an old chunk, or nothing where no copy exists.
    pub fn lookup(&self, old: u64) -> Option<u64>
        ensures { result ≡ lookup (listed self.now.table) old }
    {
        self.table.lookup(old)
    }

    // The chunks of the COW device.
    fn chunks(&self) -> u32
        ensures { result ≡ (C.disk self.now.cow).count / sectors self.now.size }
    {
        self.cow.sectors() / self.size.sectors()
    }

    // The place for the next copy, or nothing where an exception has no room.
    pub fn next_place(&self) -> Option<u64>
        ensures { result ≡ room entries_at_most (sectors self.now.size) ((C.disk self.now.cow).count / sectors self.now.size) (listed self.now.table) }
    {
        self.table.next_place(self.size, u64::from(self.chunks()))
    }

    // How many exceptions the last run has.
    pub fn last_run(&self) -> usize
        ensures run { result ≡ last_run (sectors self.now.size) (listed self.now.table) }
        ensures within { result ≤ length (listed self.now.table) }
    {
        self.table.last_run(self.size)
    }

    // Sectors up to the next place, even past the device.
    pub fn allocated(&self) -> u64
        ensures { result ≡ allocated (sectors self.now.size) (listed self.now.table) }
    {
        self.table.allocated(self.size)
    }

    // Sectors of the header and of the areas.
    pub fn metadata(&self) -> u64
        ensures { result ≡ metadata (sectors self.now.size) (length (listed self.now.table)) }
    {
        self.table.metadata(self.size)
    }

    // The numbers of this store that stay, over an origin of so many chunks.
    fn shape(&self, olds: u32) -> Shape
        ensures { result ≡ shaped olds (C.disk self.now.cow).count self.now.size }
    {
        Shape {
            size: self.size,
            olds,
            chunks: self.chunks(),
        }
    }

    // Enters an old chunk of an origin with so many chunks, at the next place.
    pub fn enter(&mut self, olds: u32, old: u64) -> Result<(), StoreFault>
        ensures call { Runs one (enter (shaped olds (C.disk self.old.cow).count self.old.size) (listed self.old.table) old) (C.disk self.old.cow) (told result (listed self.new.table)) (C.disk self.new.cow) }
        ensures size { self.new.size ≡ self.old.size }
        ensures table { OnErr result (listed self.new.table ≡ listed self.old.table) }
    {
        if self.table.lookup(old).is_some() || old >= u64::from(olds) {
            return Err(StoreFault::Chunk(old));
        }
        let Some(new) = self.next_place() else {
            return Err(StoreFault::Full(old));
        };
        let n = self.table.len();
        self.table.push(Exception { old, new }).unwrap();
        if let Err(fault) = enter_last(&mut self.cow, self.size, &self.table) {
            self.table.truncate(n);
            return Err(fault.into());
        }
        Ok(())
    }

    // Drops the last run from the list.
    pub fn drop_last_run(&mut self) -> Result<(), StoreFault>
        ensures call { Runs one (drop_run (sectors self.old.size) (listed self.old.table)) (C.disk self.old.cow) (told result (listed self.new.table)) (C.disk self.new.cow) }
        ensures size { self.new.size ≡ self.old.size }
        ensures table { OnErr result (listed self.new.table ≡ listed self.old.table) }
    {
        let n = self.table.len();
        let run = self.table.last_run(self.size);
        if n == 0 {
            return Ok(());
        }
        let left = n - run;
        drop_to(&mut self.cow, self.size, &self.table, left)?;
        self.table.truncate(left);
        Ok(())
    }

    // Below a read and a write each: they differ in the device call, so one function for both would take it as a closure and
    // promise no more than that closure. What a refusal leaves of a buffer is a promise of each call that fills one.

    // Reads a sector of a data chunk.
    pub fn data_read(&mut self, sector: u32, buffer: &mut [u8]) -> Result<(), StoreFault>
        ensures call { Runs one (data_read (in_chunks (C.disk self.old.cow) self.old.size) sector (length buffer.old)) (C.disk self.old.cow) (told result buffer.new) (C.disk self.new.cow) }
        ensures rest { self.new ≡ record self.old { cow = self.new.cow } }
        ensures untouched { OnErr result (buffer.new ≡ buffer.old) }
    {
        self.check_data(sector, buffer.len())?;
        self.cow.read(sector, buffer)?;
        Ok(())
    }

    // Writes a sector of a data chunk.
    pub fn data_write(&mut self, sector: u32, bytes: &[u8]) -> Result<(), StoreFault>
        ensures call { Runs one (data_write (in_chunks (C.disk self.old.cow) self.old.size) sector bytes.now) (C.disk self.old.cow) (told result tt) (C.disk self.new.cow) }
        ensures rest { self.new ≡ record self.old { cow = self.new.cow } }
    {
        self.check_data(sector, bytes.len())?;
        self.cow.write(sector, bytes)?;
        Ok(())
    }

    // Whether so many bytes are a sector, and the sector is one of a data chunk.
    fn check_data(&self, sector: u32, len: usize) -> Result<(), StoreFault>
        ensures { told result tt ≡ data_test (in_chunks (C.disk self.now.cow) self.now.size) sector len }
    {
        if len != SECTOR {
            return Err(StoreFault::Length);
        }
        if !self
            .shape(0)
            .on_data(u64::from(sector / self.size.sectors()))
        {
            return Err(StoreFault::Sector(sector));
        }
        Ok(())
    }

    // The first sector of a data chunk on the device.
    fn data_start(&self, chunk: u64) -> Result<u32, StoreFault>
        ensures start { gave result ≡ (if on_data (in_chunks (C.disk self.now.cow) self.now.size) chunk then good (chunk * sectors self.now.size) else refused (because 2 chunk 0)) }
        ensures inside { IfOk result (λ first. first + sectors self.now.size ≤ (C.disk self.now.cow).count) }
    {
        if self.shape(0).on_data(chunk) {
            Ok((chunk * u64::from(self.size.sectors())) as u32)
        } else {
            Err(StoreFault::Chunk(chunk))
        }
    }

    // Reads the sector of a copy that a sector of the origin has there.
    pub fn copy_read(
        &mut self,
        chunk: u64,
        sector: u32,
        buffer: &mut [u8],
    ) -> Result<(), StoreFault>
        ensures call { Runs one (copy_read (in_chunks (C.disk self.old.cow) self.old.size) chunk sector (length buffer.old)) (C.disk self.old.cow) (told result buffer.new) (C.disk self.new.cow) }
        ensures rest { self.new ≡ record self.old { cow = self.new.cow } }
        ensures untouched { OnErr result (buffer.new ≡ buffer.old) }
    {
        let first = self.data_start(chunk)?;
        self.cow.read(first + sector % self.size.sectors(), buffer)?;
        Ok(())
    }

    // Writes it.
    pub fn copy_write(&mut self, chunk: u64, sector: u32, bytes: &[u8]) -> Result<(), StoreFault>
        ensures call { Runs one (copy_write (in_chunks (C.disk self.old.cow) self.old.size) chunk sector bytes.now) (C.disk self.old.cow) (told result []) (C.disk self.new.cow) }
        ensures rest { self.new ≡ record self.old { cow = self.new.cow } }
    {
        let first = self.data_start(chunk)?;
        self.cow.write(first + sector % self.size.sectors(), bytes)?;
        Ok(())
    }

    // Reads a whole data chunk. Where a sector of it is refused, those before it have been read.
    pub fn chunk_read(&mut self, chunk: u64, buffer: &mut [u8]) -> Result<(), StoreFault>
        ensures call { Runs one (chunk_read (in_chunks (C.disk self.old.cow) self.old.size) chunk buffer.old) (C.disk self.old.cow) (told result tt, buffer.new) (C.disk self.new.cow) }
        ensures rest { self.new ≡ record self.old { cow = self.new.cow } }
    {
        if buffer.len() != SECTOR * self.size.sectors() as usize {
            return Err(StoreFault::Length);
        }
        let first = self.data_start(chunk)?;
        read_sectors(&mut self.cow, first, buffer)?;
        Ok(())
    }

    // Writes a whole data chunk.
    pub fn chunk_write(&mut self, chunk: u64, bytes: &[u8]) -> Result<(), StoreFault>
        ensures call { Runs one (chunk_write (in_chunks (C.disk self.old.cow) self.old.size) chunk bytes.now) (C.disk self.old.cow) (told result tt) (C.disk self.new.cow) }
        ensures rest { self.new ≡ record self.old { cow = self.new.cow } }
    {
        if bytes.len() != SECTOR * self.size.sectors() as usize {
            return Err(StoreFault::Length);
        }
        let first = self.data_start(chunk)?;
        write_sectors(&mut self.cow, first, bytes)?;
        Ok(())
    }

    // Flushes the COW device.
    pub fn flush(&mut self) -> Result<(), StoreFault>
        ensures call { Runs one (lifted up (flushing finished)) (C.disk self.old.cow) (told result tt) (C.disk self.new.cow) }
        ensures rest { self.new ≡ record self.old { cow = self.new.cow } }
    {
        self.cow.flush()?;
        Ok(())
    }
}
