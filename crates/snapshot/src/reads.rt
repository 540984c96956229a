// Reads of a pair, its flush, its status, and whether a merge may begin.
ghost use Rattle.std.specs.Prelude.{◌≡◌, length, OnErr};
ghost use Rattle.device.specs.Disk.{good};
ghost use Rattle.history.specs.Steps.{origin_read_tests, view_read_tests, flush_tests, question, plain};
ghost use Rattle.history.specs.History.{Happens, replied, asked, read_origin, read_view, flush_all, ask_status, ask_merge, contents, nothing, figures};
ghost use Rattle.snapshot.specs.Answers.{told, answered};
ghost use Rattle.snapshot.specs.Pairs.{disks, remembered, seen, situation, tested};
ghost use Rattle.snapshot.specs.Figures.{figured};

use crate::fault::Fault;
use crate::pair::Pair;
use crate::state::{Held, State, Status};
use device::{Device, SECTOR};

impl<O: Device, C: Device> Pair<O, C> {
    // The tests of an origin read, in their order.
    fn test_origin_read(&self, sector: u32, len: usize) -> Result<(), Fault>
        ensures { tested result ≡ origin_read_tests (seen O.disk C.disk self.now) (remembered self.now) sector len }
    {
        if len != SECTOR {
            return Err(Fault::Length);
        }
        if !self.is_running() {
            return Err(Fault::Stopped);
        }
        if self.held == Held::Closed {
            return Err(Fault::State);
        }
        if sector >= self.origin.sectors() {
            return Err(Fault::Sector(sector));
        }
        Ok(())
    }

    // Reads a sector of the origin.
    pub fn origin_read(&mut self, sector: u32, buffer: &mut [u8]) -> Result<(), Fault>
        ensures call { Happens (situation O.disk C.disk self.old) (read_origin sector (length buffer.old)) (replied contents (told result buffer.new)) (situation O.disk C.disk self.new) }
        ensures untouched { OnErr result (buffer.new ≡ buffer.old) }
    {
        self.test_origin_read(sector, buffer.len())?;
        self.origin.read(sector, buffer)?;
        Ok(())
    }

    // The tests of a snapshot read, in their order.
    fn test_snapshot_read(&self, sector: u32, len: usize) -> Result<(), Fault>
        ensures { tested result ≡ view_read_tests (seen O.disk C.disk self.now) (remembered self.now) sector len }
    {
        if len != SECTOR {
            return Err(Fault::Length);
        }
        self.may_merge()?;
        if sector >= self.origin.sectors() {
            return Err(Fault::Sector(sector));
        }
        Ok(())
    }

    // Reads a sector of the snapshot: in the copy of its chunk where there is one, else on the origin.
    pub fn snapshot_read(&mut self, sector: u32, buffer: &mut [u8]) -> Result<(), Fault>
        ensures call { Happens (situation O.disk C.disk self.old) (read_view sector (length buffer.old)) (replied contents (told result buffer.new)) (situation O.disk C.disk self.new) }
        ensures untouched { OnErr result (buffer.new ≡ buffer.old) }
    {
        self.test_snapshot_read(sector, buffer.len())?;
        match self
            .store
            .lookup(u64::from(sector / self.store.size().sectors()))
        {
            Some(copy) => self.store.copy_read(copy, sector, buffer)?,
            None => self.origin.read(sector, buffer)?,
        }
        Ok(())
    }

    // The tests of a flush, in their order.
    fn test_flush(&self) -> Result<(), Fault>
        ensures { tested result ≡ flush_tests plain (seen O.disk C.disk self.now) (remembered self.now) }
    {
        if !self.is_running() {
            return Err(Fault::Stopped);
        }
        if self.held == Held::Closed {
            return Err(Fault::State);
        }
        Ok(())
    }

    // Makes all that was written last: the origin, then the COW device.
    pub fn flush(&mut self) -> Result<(), Fault>
        ensures { Happens (situation O.disk C.disk self.old) flush_all (replied (λ _. nothing) (answered result)) (situation O.disk C.disk self.new) }
    {
        self.test_flush()?;
        self.origin.flush()?;
        self.store.flush()?;
        Ok(())
    }

    // Whether a merge may begin.
    pub fn may_merge(&self) -> Result<(), Fault>
        ensures test { tested result ≡ question (seen O.disk C.disk self.now) (remembered self.now) }
        ensures call { Happens (situation O.disk C.disk self.now) ask_merge (asked (tested result)) (situation O.disk C.disk self.now) }
    {
        if !self.is_running() {
            return Err(Fault::Stopped);
        }
        match self.held {
            Held::Closed => Err(Fault::State),
            Held::Open => Ok(()),
            Held::Invalid => Err(Fault::Invalid),
        }
    }

    // What the pair tells of itself; it never refuses.
    pub fn status(&self) -> Status
        ensures { Happens (situation O.disk C.disk self.now) ask_status (good (figures (figured result))) (situation O.disk C.disk self.now) }
    {
        if !self.is_running() {
            return Status::without(State::Stopped);
        }
        match self.held {
            Held::Closed => Status::without(State::Closed),
            Held::Open => Status {
                state: State::Active,
                exceptions: self.store.exceptions().len(),
                allocated: self.store.allocated(),
                metadata: self.store.metadata(),
            },
            Held::Invalid => Status::without(State::Invalid),
        }
    }
}
