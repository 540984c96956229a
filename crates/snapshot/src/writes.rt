// Writes of a pair. A chunk without a copy is copied first, through the work buffer.
ghost use Rattle.std.specs.Prelude.{◌≡◌, ◌/◌, length, OnErr};
ghost use Rattle.device.specs.Plans.{Runs, both};
ghost use Rattle.layout.specs.Chunks.{sectors};
ghost use Rattle.exceptions.specs.Listed.{listed};
ghost use Rattle.history.specs.Steps.{work_bytes, copying, first, view_tests};
ghost use Rattle.history.specs.History.{Happens, replied, became_invalid, write_origin, nothing, write_snapshot};
ghost use Rattle.snapshot.specs.Answers.{told, gave, answered, wrote};
ghost use Rattle.snapshot.specs.Pairs.{disks, remembered, seen, situation, tested};
ghost use Rattle.snapshot.specs.Ways.{making_way, placing, place_tests, wiped_with};

use crate::fault::Fault;
use crate::pair::Pair;
use crate::state::{Held, OriginWrite};
use device::{Device, SECTOR, read_sectors};
use store::{StoreFault, WORK, Work};

impl<O: Device, C: Device> Pair<O, C> {
    // Copies the chunk of a sector to a place, and enters it.
    fn copy(&mut self, sector: u32, place: u64, work: &mut [u8]) -> Result<(), Fault>
        requires long { length work.old ≡ work_bytes }
        ensures call { Runs both (copying (seen O.disk C.disk self.old) self.old.store.size (listed self.old.store.table) (sector / sectors self.old.store.size) place) (disks O.disk C.disk self.old) (told result (listed self.new.store.table)) (disks O.disk C.disk self.new) }
        ensures size { self.new.store.size ≡ self.old.store.size }
        ensures held { self.new.held ≡ self.old.held }
        ensures table { OnErr result (listed self.new.store.table ≡ listed self.old.store.table) }
        ensures count { (C.disk self.new.store.cow).count ≡ (C.disk self.old.store.cow).count }
    {
        let n = self.store.size().sectors();
        let chunk = sector / n;
        let bytes = &mut work[..SECTOR * n as usize];
        read_sectors(&mut self.origin, chunk * n, bytes)?;
        self.store.chunk_write(place, bytes)?;
        self.store
            .enter(self.origin.sectors() / n, u64::from(chunk))?;
        Ok(())
    }

    // Before a write to the origin: a chunk of an open pair that has no copy is copied, or without a place the store is spoilt.
    fn make_way(&mut self, sector: u32, work: &mut [u8]) -> Result<OriginWrite, Fault>
        requires long { length work.old ≡ work_bytes }
        ensures { Runs both (making_way (seen O.disk C.disk self.old) (remembered self.old) sector) (disks O.disk C.disk self.old) (record { answer = wrote result; memory = remembered self.new }) (disks O.disk C.disk self.new) }
    {
        match self.held {
            Held::Closed | Held::Invalid => return Ok(OriginWrite::Kept),
            Held::Open => {}
        }
        if self
            .store
            .lookup(u64::from(sector / self.store.size().sectors()))
            .is_some()
        {
            return Ok(OriginWrite::Kept);
        }
        let Some(place) = self.store.next_place() else {
            self.store.spoil()?;
            self.held = Held::Invalid;
            return Ok(OriginWrite::Invalidated);
        };
        self.copy(sector, place, work)?;
        Ok(OriginWrite::Kept)
    }

    // The tests of an origin write after those of its buffers, in their order.
    fn test_place(&self, sector: u32) -> Result<(), Fault>
        ensures { tested result ≡ place_tests (seen O.disk C.disk self.now) (remembered self.now) sector }
    {
        if !self.is_running() {
            return Err(Fault::Stopped);
        }
        if self.held == Held::Closed {
            return Err(Fault::State);
        }
        if sector >= self.origin.sectors() {
            return Err(Fault::Sector(sector));
        }
        Ok(())
    }

    // Writes a sector of the origin, and tells whether the snapshot became invalid by it.
    pub fn origin_write(
        &mut self,
        sector: u32,
        bytes: &[u8],
        work: &mut [u8],
    ) -> Result<OriginWrite, Fault>
        ensures call { Happens (situation O.disk C.disk self.old) (write_origin sector bytes.now (length work.old)) (replied became_invalid (wrote result)) (situation O.disk C.disk self.new) }
        ensures work { work.new ≡ wiped_with bytes.now work.old }
    {
        if bytes.len() != SECTOR {
            return Err(Fault::Length);
        }
        if work.len() != WORK {
            return Err(Fault::Length);
        }
        let work = Work { bytes: work };
        self.test_place(sector)?;
        let answer = self.make_way(sector, work.bytes)?;
        self.origin.write(sector, bytes)?;
        Ok(answer)
    }

    // Where the copy of a sector's chunk stands: a chunk of an open pair that has none is copied first.
    fn copied(&mut self, sector: u32, work: &mut [u8]) -> Result<u64, Fault>
        requires long { length work.old ≡ work_bytes }
        ensures call { Runs both (placing (seen O.disk C.disk self.old) (remembered self.old) sector) (disks O.disk C.disk self.old) (record { answer = gave result; memory = remembered self.new }) (disks O.disk C.disk self.new) }
        ensures held { self.new.held ≡ self.old.held }
        ensures count { (C.disk self.new.store.cow).count ≡ (C.disk self.old.store.cow).count }
    {
        match self.held {
            Held::Closed => return Err(Fault::State),
            Held::Invalid => return Err(Fault::Invalid),
            Held::Open => {}
        }
        let chunk = u64::from(sector / self.store.size().sectors());
        if let Some(place) = self.store.lookup(chunk) {
            return Ok(place);
        }
        let Some(place) = self.store.next_place() else {
            return Err(Fault::Store(StoreFault::Full(chunk)));
        };
        self.copy(sector, place, work)?;
        Ok(place)
    }

    // The tests of a snapshot write after those of its buffers, in their order.
    fn test_view(&self, sector: u32) -> Result<(), Fault>
        ensures { tested result ≡ first (view_tests (seen O.disk C.disk self.now) (remembered self.now) sector) }
    {
        self.may_merge()?;
        if sector >= self.origin.sectors() {
            return Err(Fault::Sector(sector));
        }
        Ok(())
    }

    // Writes a sector of the snapshot, to the copy of its chunk.
    pub fn snapshot_write(
        &mut self,
        sector: u32,
        bytes: &[u8],
        work: &mut [u8],
    ) -> Result<(), Fault>
        ensures call { Happens (situation O.disk C.disk self.old) (write_snapshot sector bytes.now (length work.old)) (replied (λ _. nothing) (answered result)) (situation O.disk C.disk self.new) }
        ensures work { work.new ≡ wiped_with bytes.now work.old }
    {
        if bytes.len() != SECTOR {
            return Err(Fault::Length);
        }
        if work.len() != WORK {
            return Err(Fault::Length);
        }
        let guard = Work { bytes: work };
        self.test_view(sector)?;
        let place = self.copied(sector, guard.bytes)?;
        self.store.copy_write(place, sector, bytes)?;
        Ok(())
    }
}
