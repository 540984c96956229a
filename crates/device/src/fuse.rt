// A device that goes after some good writes and flushes.
ghost use Rattle.std.specs.Prelude.{◌≡◌, [], length, OnErr};
ghost use Rattle.device.specs.Disk.{Called, reads, writes, flushes};
ghost use Rattle.device.specs.Answers.{told};
ghost use Rattle.device.specs.Fuse.{fused, Burnt};
ghost use Rattle.device.specs.Fusing.{fused_whole};

use crate::checks::check_sector;
use crate::device::Device;
use crate::fault::DeviceFault;
use crate::power::PowerCut;

#[derive(Drop)]
pub struct FuseDevice<D> {
    inner: D,
    // how many good writes and flushes are still passed on; `None` once it has blown
    left: Option<u32>,
}

impl<D> FuseDevice<D> {
    // Passes on `k` good writes and flushes, and goes inside the next.
    pub fn new(inner: D, k: u32) -> FuseDevice<D>
        ensures inner { result.inner ≡ inner }
        ensures left { result.left ≡ Some k }
    {
        FuseDevice {
            inner,
            left: Some(k),
        }
    }

    // The device behind the fuse.
    pub fn into_inner(self) -> D
        ensures { result ≡ self.inner }
    {
        self.inner
    }
}

impl<D: Device> Device for FuseDevice<D> {
    ghost disk = { λ x. fused (D.disk x.inner) x.left };

    ghost whole = { λ x. fused_whole _ x.left (D.whole x.inner) };

    fn sectors(&self) -> u32 {
        self.inner.sectors()
    }

    fn is_on(&self) -> bool {
        self.left.is_some() && self.inner.is_on()
    }

    #[tactic(auto, using(crate::specs::Fusing::burnt_called))]
    fn read(&mut self, sector: u32, buffer: &mut [u8]) -> Result<(), DeviceFault>
        ensures call { Called (reads (length buffer.old) sector) (fused (D.disk self.old.inner) self.old.left) (told result buffer.new) (fused (D.disk self.new.inner) self.new.left) }
        ensures untouched { OnErr result (buffer.new ≡ buffer.old) }
        ensures burnt { Burnt (reads (length buffer.old) sector) self.old.left (D.disk self.old.inner) (told result buffer.new) self.new.left (D.disk self.new.inner) }
    {
        if self.left.is_some() {
            return self.inner.read(sector, buffer);
        }
        check_sector(buffer.len(), sector, self.inner.sectors())?;
        Err(DeviceFault::Gone(sector))
    }

    #[tactic(auto, using(crate::specs::Fusing::burnt_called))]
    fn write(&mut self, sector: u32, bytes: &[u8]) -> Result<(), DeviceFault>
        ensures call { Called (writes sector bytes.now) (fused (D.disk self.old.inner) self.old.left) (told result []) (fused (D.disk self.new.inner) self.new.left) }
        ensures burnt { Burnt (writes sector bytes.now) self.old.left (D.disk self.old.inner) (told result []) self.new.left (D.disk self.new.inner) }
    {
        match self.left {
            Some(k) if k > 0 => {
                self.inner.write(sector, bytes)?;
                self.left = Some(k - 1);
                Ok(())
            }
            _ => {
                check_sector(bytes.len(), sector, self.inner.sectors())?;
                self.left = None;
                Err(DeviceFault::Gone(sector))
            }
        }
    }

    #[tactic(auto, using(crate::specs::Fusing::burnt_called))]
    fn flush(&mut self) -> Result<(), DeviceFault>
        ensures call { Called flushes (fused (D.disk self.old.inner) self.old.left) (told result []) (fused (D.disk self.new.inner) self.new.left) }
        ensures burnt { Burnt flushes self.old.left (D.disk self.old.inner) (told result []) self.new.left (D.disk self.new.inner) }
    {
        match self.left {
            Some(k) if k > 0 => {
                self.inner.flush()?;
                self.left = Some(k - 1);
                Ok(())
            }
            _ => {
                self.left = None;
                Err(DeviceFault::Gone(0))
            }
        }
    }
}

// A cut of the device behind the fuse; the fuse is out of the way then.
impl<D: PowerCut> PowerCut for FuseDevice<D> {
    type Left = D::Left;

    fn power_cut(self) -> Option<D::Left> {
        self.inner.power_cut()
    }
}
