// A disk is loaded with new bytes, the power fails on the way, and both devices are read back afterwards.
#![tactic(auto)]

use anyhow::anyhow;
use device::{
    Device, DeviceFault, FuseDevice, PlainDevice, PowerCut, SECTOR, read_sectors, write_sectors,
};
use std::alloc::{AllocError, Global};
use std::error::Error;
use std::fmt;

const SECTORS: usize = 8;

const OLD: u8 = b'o';

const NEW: u8 = b'n';

// A refusal that this program does not expect.
#[derive(Debug, Drop)]
struct Unexpected(DeviceFault);

impl fmt::Display for Unexpected {
    fn fmt<W: fmt::Write>(&self, f: &mut fmt::Formatter<W>) -> fmt::Result {
        f.write_str(match self.0 {
            DeviceFault::Length => "a buffer has the wrong length",
            DeviceFault::Place(_) => "a sector is not on the device",
            DeviceFault::Gone(_) => "a device is gone",
        })
    }
}

impl Error for Unexpected {}

impl From<DeviceFault> for Unexpected {
    fn from(fault: DeviceFault) -> Unexpected {
        Unexpected(fault)
    }
}

fn disk_of(heap: Global, byte: u8) -> Result<PlainDevice, AllocError> {
    Ok(PlainDevice::new(vec![in heap; byte; SECTOR * SECTORS]?))
}

// Copies a disk sector by sector to another, and makes the copy last.
fn copy<O: Device, C: Device>(from: &mut O, to: &mut C) -> Result<u32, Unexpected> {
    let mut sector = [0u8; SECTOR];
    for s in 0..from.sectors() {
        read_sectors(from, s, &mut sector)?;
        write_sectors(to, s, &sector)?;
    }
    to.flush()?;
    Ok(from.sectors())
}

// Fills every sector with a byte; tells how many sectors were written before a refusal, or all of them.
fn load<D: Device>(disk: &mut D, byte: u8) -> u32 {
    let sectors = disk.sectors();
    (0..sectors)
        .find(|&s| disk.write(s, &[byte; SECTOR]).is_err())
        .unwrap_or(sectors)
}

// How many sectors are full of a byte.
fn count_full<D: Device>(disk: &mut D, byte: u8) -> Result<u32, Unexpected> {
    let mut sector = [0u8; SECTOR];
    let mut found = 0;
    // a `for`: in `try_fold` the count would have to saturate, and the closure to say its type
    for s in 0..disk.sectors() {
        disk.read(s, &mut sector)?;
        if sector == [byte; SECTOR] {
            found += 1;
        }
    }
    Ok(found)
}

fn run(rt: &HostRuntime) -> anyhow::Result<()> {
    let mut origin = FuseDevice::new(disk_of(rt.alloc(), OLD)?, 5);
    let mut cow = FuseDevice::new(disk_of(rt.alloc(), 0)?, 1000);
    println!(rt;
        "An origin of {} sectors full of old bytes, and a COW device of {} sectors of zeros.",
        origin.sectors(),
        cow.sectors()
    )?;
    let copied = copy(&mut origin, &mut cow)?;
    println!(rt; "Copied {copied} sectors of the origin to the COW device, and flushed it.")?;
    let written = load(&mut origin, NEW);
    println!(rt;
        "Loaded new bytes over the origin: {written} sectors were written, and inside the next write the device went."
    )?;
    let on = origin.is_on();
    println!(rt; "The origin is on: {on}.")?;
    let (Some(mut origin), Some(mut cow)) = (origin.power_cut(), cow.power_cut()) else {
        return Err(anyhow!("a device has no power"));
    };
    let on = origin.is_on() && cow.is_on();
    println!(rt; "The power was cut. Both devices are on: {on}.")?;
    let new = count_full(&mut origin, NEW)?;
    let old = count_full(&mut origin, OLD)?;
    println!(rt; "Read back: {new} sectors of the origin are new, and {old} are old.")?;
    let kept = count_full(&mut cow, OLD)?;
    println!(rt; "Read back: {kept} sectors of the COW device are old.")?;
    Ok(())
}

fn main(rt: HostRuntime) -> anyhow::Result<()> {
    run(&rt)
}
