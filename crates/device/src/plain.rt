// A device in memory.
ghost use Rattle.std.specs.Prelude.{◌≡◌, ◌+◌, ◌*◌, ◌^◌, ◌<◌, ◌≤◌, false, [], length, is_ok, if◌then◌else◌, Some, None, MatchOption, OnErr};
ghost use Rattle.device.specs.Disk.{Called, Calmly, Cut, reads, writes, flushes};
ghost use Rattle.device.specs.Answers.{told, power_test};
ghost use Rattle.device.specs.Plain.{contents, plain, fit, fitness, sectors_of, nth_sector, with_sector};
ghost use Rattle.device.specs.Sectors.{plain_whole};

use crate::checks::{SECTOR, check_sector};
use crate::device::Device;
use crate::fault::DeviceFault;
use crate::power::PowerCut;

// The caller's bytes in whole sectors, one possibility each; it never goes. Bytes with no sector, part of one or too many are kept,
// but the device is then one sector of zeros, gone from the start.
#[derive(Drop)]
pub struct PlainDevice {
    bytes: Vec<u8>,
}

// Whether so many bytes are whole sectors, from 1 to 4,294,967,295 of them.
fn is_fit(len: usize) -> bool
    ensures { result ≡ fit len }
{
    len > 0 && len % SECTOR == 0 && len < 0x200_0000_0000
}

fn get_sector(all: &[u8], s: u32, buffer: &mut [u8])
    requires there { 512 * s + 512 ≤ length all.now }
    requires long { length buffer.old ≡ 512 }
    ensures { buffer.new ≡ nth_sector all.now s }
{
    let at = SECTOR * s as usize;
    buffer.copy_from_slice(&all[at..at + SECTOR]);
}

fn set_sector(all: &mut [u8], s: u32, bytes: &[u8])
    requires there { 512 * s + 512 ≤ length all.old }
    requires long { length bytes.now ≡ 512 }
    ensures { all.new ≡ with_sector all.old s bytes.now }
{
    let at = SECTOR * s as usize;
    all[at..at + SECTOR].copy_from_slice(bytes);
}

impl PlainDevice {
    // The question whether bytes make a device that is on.
    pub fn fits(bytes: &[u8]) -> Result<(), DeviceFault>
        ensures { told result tt ≡ fitness bytes.now }
    {
        if is_fit(bytes.len()) {
            Ok(())
        } else {
            Err(DeviceFault::Length)
        }
    }

    pub fn new(bytes: Vec<u8>) -> PlainDevice
        ensures { contents result ≡ bytes.items }
    {
        Self { bytes }
    }

    // Refuses, at a sector, where the device is gone.
    fn powered(&self, sector: u32) -> Result<(), DeviceFault>
        ensures { told result tt ≡ power_test (fit (length (contents self.now))) sector }
    {
        if self.is_on() {
            Ok(())
        } else {
            Err(DeviceFault::Gone(sector))
        }
    }

    // The bytes, with what was written to the device.
    pub fn into_bytes(self) -> Vec<u8>
        ensures { result.items ≡ contents self }
    {
        self.bytes
    }
}

impl Device for PlainDevice {
    ghost disk = { λ x. plain (contents x) };

    ghost whole = { λ x. plain_whole (contents x) };

    fn sectors(&self) -> u32 {
        if self.is_on() {
            (self.bytes.len() / SECTOR) as u32
        } else {
            1
        }
    }

    fn is_on(&self) -> bool {
        is_fit(self.bytes.len())
    }

    #[tactic(auto, using(crate::specs::Ways::calmly_called))]
    fn read(&mut self, sector: u32, buffer: &mut [u8]) -> Result<(), DeviceFault>
        ensures call { Called (reads (length buffer.old) sector) (plain (contents self.old)) (told result buffer.new) (plain (contents self.new)) }
        ensures untouched { OnErr result (buffer.new ≡ buffer.old) }
        ensures calmly { Calmly (reads (length buffer.old) sector) (plain (contents self.old)) (told result buffer.new) (plain (contents self.new)) }
        ensures same { contents self.new ≡ contents self.old }
    {
        check_sector(buffer.len(), sector, self.sectors())?;
        self.powered(sector)?;
        get_sector(&self.bytes, sector, buffer);
        Ok(())
    }

    #[tactic(auto, using(crate::specs::Ways::calmly_called))]
    fn write(&mut self, sector: u32, bytes: &[u8]) -> Result<(), DeviceFault>
        ensures call { Called (writes sector bytes.now) (plain (contents self.old)) (told result []) (plain (contents self.new)) }
        ensures calmly { Calmly (writes sector bytes.now) (plain (contents self.old)) (told result []) (plain (contents self.new)) }
        ensures bytes { contents self.new ≡ (if is_ok result then with_sector (contents self.old) sector bytes.now else contents self.old) }
    {
        check_sector(bytes.len(), sector, self.sectors())?;
        self.powered(sector)?;
        set_sector(&mut self.bytes, sector, bytes);
        Ok(())
    }

    #[tactic(auto, using(crate::specs::Ways::calmly_called))]
    fn flush(&mut self) -> Result<(), DeviceFault>
        ensures call { Called flushes (plain (contents self.old)) (told result []) (plain (contents self.new)) }
        ensures calmly { Calmly flushes (plain (contents self.old)) (told result []) (plain (contents self.new)) }
        ensures same { contents self.new ≡ contents self.old }
    {
        self.powered(0)
    }
}

// Each sector has its one possibility, so the device is left as it was; one of unfit bytes stays gone.
impl PowerCut for PlainDevice {
    type Left = PlainDevice;

    fn power_cut(self) -> Option<PlainDevice>
        ensures cut { MatchOption result ((plain (contents self)).on ≡ false) (λ x. Cut (plain (contents self)) (plain (contents x))) }
        ensures left { result ≡ (if fit (length (contents self)) then Some self else None) }
    {
        self.is_on().then_some(self)
    }
}
