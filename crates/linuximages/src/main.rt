// Opens COW images that a Linux kernel wrote, and prints what opening finds. Its figures are those of the kernel's own status, but for
// the metadata where the last area is full: the kernel then counts the next area too.
#![tactic(auto)]

mod fault;
mod run;

use device::{Device, PlainDevice};
use exceptions::{ExceptionTable, follows};
use fault::Fault;
use layout::Exception;
use run::Run;
use std::{fs, io};
use store::{Store, WORK};

// A COW image by its file's name, and the sectors of the origin that it was made for.
#[derive(Clone, Copy)]
struct Image {
    name: &'static str,
    origin: u32,
}

impl Image {
    fn new(name: &'static str, origin: u32) -> Image {
        Image { name, origin }
    }
}

// One line for each run of exceptions whose two numbers both rise by one.
fn print_runs(rt: &HostRuntime, exceptions: &[Exception]) -> io::Result<()> {
    for run in exceptions.chunk_by(|a, b| follows(*a, *b)) {
        println!(rt; "  {}", Run(run))?;
    }
    Ok(())
}

// How many bytes differ. A fold, since `filter` and `count` would take the bytes one at a time; no count can wrap.
fn count_changed(before: &[u8], after: &[u8]) -> usize {
    before
        .iter()
        .zip(after)
        .fold(0, |n: usize, (a, b)| n.wrapping_add(usize::from(a != b)))
}

// Opens a store, prints what opening finds or why it refuses, and gives back the bytes that it leaves.
fn open(rt: &HostRuntime, bytes: Vec<u8>, origin: u32) -> anyhow::Result<Vec<u8>> {
    let mut store = Store::new(PlainDevice::new(bytes), ExceptionTable::new(rt.alloc())?);
    match store.open(origin, &mut [0u8; WORK]) {
        Ok(()) => {
            println!(rt;
                "  sectors of a chunk {}, exceptions {}, allocated {}, metadata {}",
                store.size().sectors(),
                store.exceptions().len(),
                store.allocated(),
                store.metadata()
            )?;
            print_runs(rt, store.exceptions())?;
        }
        Err(fault) => {
            let fault = Fault(fault);
            println!(rt; "  refused: {fault}")?;
        }
    }
    let (device, _) = store.into_parts();
    Ok(device.into_bytes())
}

// Opens an image; where opening wrote to it, opens what it left as well.
fn show(rt: &HostRuntime, image: Image) -> anyhow::Result<()> {
    let name = image.name;
    let origin = image.origin;
    println!(rt; "{name}, origin of {origin} sectors")?;
    let before = fs::read(rt, name)?;
    let after = open(rt, before.clone()?, origin)?;
    let changed = count_changed(&before, &after);
    println!(rt; "  bytes that opening changed {changed}")?;
    if changed > 0 {
        println!(rt; "{name}, opened again")?;
        let again = open(rt, after.clone()?, origin)?;
        let changed = count_changed(&after, &again);
        println!(rt; "  bytes that opening changed {changed}")?;
    }
    Ok(())
}

fn show_all(rt: &HostRuntime) -> anyhow::Result<()> {
    let images = [
        Image::new("spec-run.cow", 16),
        Image::new("count-c1-n32.cow", 128),
        Image::new("junk-c1-n32.cow", 400),
        Image::new("basic-c2.cow", 2048),
        Image::new("basic-c8.cow", 2048),
        Image::new("part2-c1-30.cow", 100),
        Image::new("part2-c1-30.cow-part", 100),
        Image::new("overflow-org-c1.cow", 64),
        // the kernel's writes with one write of an area torn, so that a stale entry stands behind the end entry
        Image::new("lw-c8.torn2.cow", 1024),
    ];
    for image in images {
        show(rt, image)?;
    }
    Ok(())
}

fn main(rt: HostRuntime) -> anyhow::Result<()> {
    show_all(&rt)
}
