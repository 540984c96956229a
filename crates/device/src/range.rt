// Ranges of sectors of any device, the lowest first.
ghost use Rattle.device.specs.Answers.{told};
ghost use Rattle.device.specs.Plans.{Runs, one, zeroing, reading_into, writing_from};

use crate::checks::SECTOR;
use crate::device::Device;
use crate::fault::DeviceFault;

// Writes zeros over `n` sectors from `first` on.
pub fn write_zeros<D: Device>(device: &mut D, first: u32, n: u32) -> Result<(), DeviceFault>
    ensures { Runs one (zeroing first n) (D.disk device.old) (told result tt) (D.disk device.new) }
{
    // no device has sector u32::MAX, so a device refuses before the numbers run out
    for sector in (first..=u32::MAX).take(n as usize) {
        device.write(sector, &[0; SECTOR])?;
    }
    Ok(())
}

// Fills a buffer of whole sectors with those from `first` on.
pub fn read_sectors<D: Device>(
    device: &mut D,
    first: u32,
    buffer: &mut [u8],
) -> Result<(), DeviceFault>
    ensures { Runs one (reading_into first buffer.old) (D.disk device.old) (record { answer = told result tt; buffer = buffer.new }) (D.disk device.new) }
{
    if buffer.len() % SECTOR != 0 {
        return Err(DeviceFault::Length);
    }
    // by place: the contract of `chunks_exact_mut` does not say what the buffer holds after the loop
    for (sector, at) in (first..=u32::MAX).zip((0..buffer.len()).step_by(SECTOR)) {
        device.read(sector, &mut buffer[at..at + SECTOR])?;
    }
    Ok(())
}

// Writes a buffer of whole sectors to those from `first` on.
pub fn write_sectors<D: Device>(device: &mut D, first: u32, bytes: &[u8]) -> Result<(), DeviceFault>
    ensures { Runs one (writing_from first bytes.now) (D.disk device.old) (told result tt) (D.disk device.new) }
{
    if bytes.len() % SECTOR != 0 {
        return Err(DeviceFault::Length);
    }
    for (sector, part) in (first..=u32::MAX).zip(bytes.chunks_exact(SECTOR)) {
        device.write(sector, part)?;
    }
    Ok(())
}
