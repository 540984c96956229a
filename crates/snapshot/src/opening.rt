// Making and opening.
ghost use Rattle.std.specs.Prelude.{◌≡◌, length, IfOk};
ghost use Rattle.device.specs.Plans.{Runs, both};
ghost use Rattle.layout.specs.Chunks.{sectors};
ghost use Rattle.history.specs.Steps.{make_tests, shape, make};
ghost use Rattle.history.specs.History.{Happens, replied, reopen, nothing};
ghost use Rattle.snapshot.specs.Answers.{answered};
ghost use Rattle.snapshot.specs.Pairs.{disks, remembered, seen, situation, tested, wiped, Kept, LeftOfMaking};

use crate::fault::Fault;
use crate::pair::Pair;
use crate::state::Held;
use device::Device;
use layout::ChunkSize;
use store::{WORK, Work};

impl<O: Device, C: Device> Pair<O, C> {
    // The tests of making and of opening that ask for a closed pair, in their order.
    fn test_closed(&self) -> Result<(), Fault>
        ensures { tested result ≡ make_tests (seen O.disk C.disk self.now) (remembered self.now) }
    {
        if !self.is_running() {
            return Err(Fault::Stopped);
        }
        if self.held != Held::Closed {
            return Err(Fault::State);
        }
        Ok(())
    }

    // Whether the devices fit chunks of a size.
    fn test_shape(&self, size: ChunkSize) -> Result<(), Fault>
        ensures { tested result ≡ shape (seen O.disk C.disk self.now) (sectors size) }
    {
        let n = size.sectors();
        if self.origin.sectors() % n != 0 || self.store.sectors() / n < 3 {
            return Err(Fault::Misshaped);
        }
        Ok(())
    }

    // Makes an empty snapshot with chunks of c sectors; the pair is active then.
    pub fn make(&mut self, c: u32) -> Result<(), Fault>
        ensures call { Runs both (make (seen O.disk C.disk self.old) (remembered self.old) c) (disks O.disk C.disk self.old) (record { answer = answered result; memory = remembered self.new }) (disks O.disk C.disk self.new) }
        ensures promise { IfOk result (λ _. Kept c (disks O.disk C.disk self.old) (situation O.disk C.disk self.new)) }
        ensures cut { LeftOfMaking c (seen O.disk C.disk self.old).size (C.disk self.old.store.cow) (C.disk self.new.store.cow) }
    {
        self.test_closed()?;
        let size = ChunkSize::try_from(c)?;
        self.test_shape(size)?;
        self.origin.flush()?;
        self.store.make(size)?;
        self.held = Held::Open;
        Ok(())
    }

    // Opens what stands on the devices; the pair is active then. The work buffer is zeroed, unless its length is wrong.
    pub fn open(&mut self, work: &mut [u8]) -> Result<(), Fault>
        ensures call { Happens (situation O.disk C.disk self.old) (reopen (length work.old)) (replied (λ _. nothing) (answered result)) (situation O.disk C.disk self.new) }
        ensures work { work.new ≡ wiped work.old }
    {
        if work.len() != WORK {
            return Err(Fault::Length);
        }
        let work = Work { bytes: work };
        self.test_closed()?;
        self.store.open(self.origin.sectors(), work.bytes)?;
        self.held = Held::Open;
        Ok(())
    }
}
