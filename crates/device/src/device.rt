// The one interface of devices.
ghost use Rattle.std.specs.Prelude.{◌≡◌, [], length, OnErr};
ghost use Rattle.device.specs.Disk.{Disk, Whole, Called, reads, writes, flushes};
ghost use Rattle.device.specs.Answers.{told};

use crate::fault::DeviceFault;

pub trait Device {
    // What the device means: its sectors with their possibilities, and whether it is on.
    ghost disk: { Self → Disk };

    // The number of sectors, which never changes.
    fn sectors(&self) -> u32
        ensures { result ≡ (disk self.now).count };

    // Whether the device is on.
    fn is_on(&self) -> bool
        ensures { result ≡ (disk self.now).on };

    // Fills the 512 bytes of the buffer with a sector's last possibility; a refused read leaves the buffer untouched.
    fn read(&mut self, sector: u32, buffer: &mut [u8]) -> Result<(), DeviceFault>
        ensures call { Called (reads (length buffer.old) sector) (disk self.old) (told result buffer.new) (disk self.new) }
        ensures untouched { OnErr result (buffer.new ≡ buffer.old) };

    // Makes 512 bytes a sector's last possibility.
    fn write(&mut self, sector: u32, bytes: &[u8]) -> Result<(), DeviceFault>
        ensures { Called (writes sector bytes.now) (disk self.old) (told result []) (disk self.new) };

    // Leaves every sector its last possibility alone.
    fn flush(&mut self) -> Result<(), DeviceFault>
        ensures { Called flushes (disk self.old) (told result []) (disk self.new) };

    // What holds of it at all times, which each `impl` has to prove.
    ghost whole: { (x : Self) → Whole (disk x) };
}
