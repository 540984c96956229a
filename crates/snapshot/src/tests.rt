// What a pair answers, on examples with chunks of one sector and of two.
use crate::{Fault, FaultNumbers, OriginWrite, Pair, State, Status};
use device::{Device, DeviceFault, FuseDevice, PlainDevice};
use exceptions::ExceptionTable;
use layout::{ChunkSize, HeaderFault};
use std::alloc::Global;
use std::test::Fail;
use store::{Store, StoreFault, WORK};

fn disk(heap: Global, sectors: u16, fill: u8) -> Result<PlainDevice, Fail> {
    Ok(PlainDevice::new(vec![in heap; fill; usize::from(sectors) * 512]?))
}

// A closed pair of 100 and 60 sectors.
fn closed(heap: Global) -> Result<Pair<PlainDevice, PlainDevice>, Fail> {
    let store = Store::new(disk(heap, 60, b'j')?, ExceptionTable::new(heap)?);
    Ok(Pair::new(disk(heap, 100, b'o')?, store))
}

// A closed pair whose devices go inside the write or flush after so many.
fn fused(
    heap: Global,
    origin: u32,
    cow: u32,
) -> Result<Pair<FuseDevice<PlainDevice>, FuseDevice<PlainDevice>>, Fail> {
    let cow = FuseDevice::new(disk(heap, 60, b'j')?, cow);
    let store = Store::new(cow, ExceptionTable::new(heap)?);
    Ok(Pair::new(FuseDevice::new(disk(heap, 100, b'o')?, origin), store))
}

// The numbers of a refusal: number, layer, device, place, entry.
fn is_numbered(fault: Fault, wanted: [u32; 5]) -> bool {
    fault.numbers()
        == FaultNumbers {
            number: wanted[0],
            layer: wanted[1],
            device: wanted[2],
            place: u64::from(wanted[3]),
            entry: wanted[4],
        }
}

// A made pair has no exceptions; its header and its first area are two sectors, and the next place comes after them.
#[test]
fn made_is_active(rt: HostRuntime) -> Result<(), Fail> {
    let mut pair = closed(rt.alloc())?;
    pair.make(1)?;
    let status = Status {
        state: State::Active,
        exceptions: 0,
        allocated: 2,
        metadata: 2,
    };
    assert_eq!(rt; pair.status(), status);
    assert_eq!(rt; pair.may_merge(), Ok(()));
    let mut sector = [0u8; 512];
    pair.origin_read(99, &mut sector)?;
    assert_eq!(rt; sector[511], b'o');
    let mut sector = [0u8; 512];
    pair.snapshot_read(99, &mut sector)?;
    assert_eq!(rt; sector[511], b'o');
    pair.flush()?;
    Ok(())
}

// Chunk 3 of two sectors has a copy at chunk 2: sector 7 of the snapshot is the second of them, and sector 8 is on the origin.
#[test]
fn opened_reads_copies(rt: HostRuntime) -> Result<(), Fail> {
    let mut pair = closed(rt.alloc())?;
    pair.make(2)?;
    let (origin, mut store) = pair.into_parts();
    store.enter(50, 3)?;
    store.copy_write(2, 6, &[b'a'; 512])?;
    store.copy_write(2, 7, &[b'b'; 512])?;
    let mut pair = Pair::new(origin, store);
    assert_eq!(rt; pair.status().state, State::Closed);
    let mut work = [7u8; WORK];
    pair.open(&mut work)?;
    assert!(rt; work.iter().all(|b| *b == 0));
    assert_eq!(rt; pair.status().exceptions, 1);
    let mut sector = [0u8; 512];
    pair.snapshot_read(7, &mut sector)?;
    assert_eq!(rt; sector[0], b'b');
    pair.snapshot_read(6, &mut sector)?;
    assert_eq!(rt; sector[0], b'a');
    pair.snapshot_read(8, &mut sector)?;
    assert_eq!(rt; sector[0], b'o');
    pair.origin_read(7, &mut sector)?;
    assert_eq!(rt; sector[0], b'o');
    Ok(())
}

// Length is tested before the state, and the state before the place.
#[test]
fn reads_refuse_in_order(rt: HostRuntime) -> Result<(), Fail> {
    let mut pair = closed(rt.alloc())?;
    let mut short = [7u8; 511];
    let mut sector = [7u8; 512];
    assert_eq!(rt; pair.origin_read(100, &mut short), Err(Fault::Length));
    assert_eq!(rt; pair.snapshot_read(100, &mut short), Err(Fault::Length));
    assert_eq!(rt; pair.origin_read(100, &mut sector), Err(Fault::State));
    assert_eq!(rt; pair.snapshot_read(100, &mut sector), Err(Fault::State));
    assert_eq!(rt; pair.flush(), Err(Fault::State));
    assert_eq!(rt; pair.may_merge(), Err(Fault::State));
    pair.make(1)?;
    assert_eq!(rt; pair.origin_read(100, &mut sector), Err(Fault::Sector(100)));
    assert_eq!(rt;
        pair.snapshot_read(100, &mut sector),
        Err(Fault::Sector(100))
    );
    assert_eq!(rt; short[510], 7);
    assert_eq!(rt; sector[511], 7);
    Ok(())
}

// The state is tested before the size of chunks, and that before the shape.
#[test]
fn making_refuses_in_order(rt: HostRuntime) -> Result<(), Fail> {
    let mut pair = closed(rt.alloc())?;
    assert_eq!(rt; pair.make(3), Err(Fault::ChunkSize(3)));
    assert_eq!(rt; pair.make(8), Err(Fault::Misshaped));
    assert_eq!(rt; pair.status().state, State::Closed);
    pair.make(4)?;
    assert_eq!(rt; pair.make(3), Err(Fault::State));
    let store = Store::new(disk(rt.alloc(), 2, b'j')?, ExceptionTable::new(rt.alloc())?);
    let mut small = Pair::new(disk(rt.alloc(), 100, b'o')?, store);
    assert_eq!(rt; small.make(1), Err(Fault::Misshaped));
    Ok(())
}

// A work buffer of another length stays; every other way out leaves zeros.
#[test]
fn opening_refuses_in_order(rt: HostRuntime) -> Result<(), Fail> {
    let mut pair = closed(rt.alloc())?;
    let mut short = [7u8; 512];
    assert_eq!(rt; pair.open(&mut short), Err(Fault::Length));
    assert!(rt; short.iter().all(|b| *b == 7));
    let mut work = [7u8; WORK];
    let magic = Fault::Store(StoreFault::Head(HeaderFault::Magic));
    assert_eq!(rt; pair.open(&mut work), Err(magic));
    assert!(rt; work.iter().all(|b| *b == 0));
    pair.make(1)?;
    let mut work = [7u8; WORK];
    assert_eq!(rt; pair.open(&mut work), Err(Fault::State));
    assert!(rt; work.iter().all(|b| *b == 0));
    assert_eq!(rt; pair.status().state, State::Active);
    Ok(())
}

// An origin write copies its chunk first, once: the snapshot still reads as the origin did.
#[test]
fn origin_writes_copy_first(rt: HostRuntime) -> Result<(), Fail> {
    let mut pair = closed(rt.alloc())?;
    let mut work = [7u8; WORK];
    let state = Err(Fault::State);
    assert_eq!(rt; pair.origin_write(7, &[b'n'; 512], &mut work), state);
    assert!(rt; work.iter().all(|b| *b == 0));
    pair.make(2)?;
    let length = Err(Fault::Length);
    let mut work = [7u8; WORK];
    assert_eq!(rt; pair.origin_write(7, &[b'n'; 511], &mut work), length);
    assert!(rt; work.iter().all(|b| *b == 7));
    let kept = Ok(OriginWrite::Kept);
    assert_eq!(rt; pair.origin_write(7, &[b'n'; 512], &mut work), kept);
    assert!(rt; work.iter().all(|b| *b == 0));
    assert_eq!(rt; pair.origin_write(6, &[b'n'; 512], &mut work), kept);
    assert_eq!(rt; pair.status().exceptions, 1);
    let mut sector = [0u8; 512];
    pair.origin_read(7, &mut sector)?;
    assert_eq!(rt; sector[0], b'n');
    pair.snapshot_read(7, &mut sector)?;
    assert_eq!(rt; sector[0], b'o');
    pair.snapshot_read(6, &mut sector)?;
    assert_eq!(rt; sector[0], b'o');
    Ok(())
}

// Three chunks have one place: the next origin write makes the snapshot invalid, for good.
#[test]
fn full_store_is_lost(rt: HostRuntime) -> Result<(), Fail> {
    let heap = rt.alloc();
    let store = Store::new(disk(heap, 3, b'j')?, ExceptionTable::new(heap)?);
    let mut pair = Pair::new(disk(heap, 100, b'o')?, store);
    let mut work = [7u8; WORK];
    pair.make(1)?;
    let kept = Ok(OriginWrite::Kept);
    assert_eq!(rt; pair.origin_write(0, &[b'n'; 512], &mut work), kept);
    let full = Fault::Store(StoreFault::Full(1));
    assert_eq!(rt; pair.snapshot_write(1, &[b'n'; 512], &mut work), Err(full));
    let lost = Ok(OriginWrite::Invalidated);
    assert_eq!(rt; pair.origin_write(1, &[b'n'; 512], &mut work), lost);
    assert_eq!(rt; pair.status().state, State::Invalid);
    assert_eq!(rt; pair.may_merge(), Err(Fault::Invalid));
    let mut sector = [0u8; 512];
    assert_eq!(rt; pair.snapshot_read(1, &mut sector), Err(Fault::Invalid));
    assert_eq!(rt;
        pair.snapshot_write(100, &sector, &mut work),
        Err(Fault::Invalid)
    );
    pair.origin_read(1, &mut sector)?;
    assert_eq!(rt; sector[0], b'n');
    assert_eq!(rt; pair.origin_write(2, &[b'n'; 512], &mut work), kept);
    let (origin, store) = pair.into_parts();
    let mut pair = Pair::new(origin, store);
    let invalid = Fault::Store(StoreFault::Invalid);
    assert_eq!(rt; pair.open(&mut work), Err(invalid));
    Ok(())
}

// Making flushes the origin first; once a device is gone, the pair is stopped.
#[test]
fn gone_devices_stop_it(rt: HostRuntime) -> Result<(), Fail> {
    let mut pair = fused(rt.alloc(), 0, 100)?;
    assert_eq!(rt; pair.make(1), Err(Fault::Origin(DeviceFault::Gone(0))));
    assert_eq!(rt; pair.status().state, State::Stopped);
    assert_eq!(rt; pair.make(3), Err(Fault::Stopped));
    let mut pair = fused(rt.alloc(), 1, 0)?;
    let gone = Fault::Store(StoreFault::Device(DeviceFault::Gone(0)));
    assert_eq!(rt; pair.make(1), Err(gone));
    let mut sector = [0u8; 512];
    assert_eq!(rt; pair.origin_read(100, &mut sector), Err(Fault::Stopped));
    assert_eq!(rt; pair.snapshot_read(100, &mut sector), Err(Fault::Stopped));
    assert_eq!(rt; pair.flush(), Err(Fault::Stopped));
    assert_eq!(rt; pair.may_merge(), Err(Fault::Stopped));
    assert_eq!(rt; pair.open(&mut [0u8; WORK]), Err(Fault::Stopped));
    let (origin, _) = pair.into_parts();
    assert!(rt; origin.is_on());
    Ok(())
}

// A flush of the pair flushes the origin, then the COW device.
#[test]
fn flush_of_both(rt: HostRuntime) -> Result<(), Fail> {
    let mut pair = fused(rt.alloc(), 1, 100)?;
    pair.make(1)?;
    assert_eq!(rt; pair.flush(), Err(Fault::Origin(DeviceFault::Gone(0))));
    let mut pair = fused(rt.alloc(), 100, 6)?;
    pair.make(1)?;
    let gone = Fault::Store(StoreFault::Device(DeviceFault::Gone(0)));
    assert_eq!(rt; pair.flush(), Err(gone));
    assert_eq!(rt;
        pair.status(),
        Status {
            state: State::Stopped,
            exceptions: 0,
            allocated: 0,
            metadata: 0,
        }
    );
    Ok(())
}

#[test]
fn refusals_in_numbers(rt: HostRuntime) -> Result<(), Fail> {
    assert!(rt; is_numbered(Fault::Length, [1, 3, 0, 0, 0]));
    assert!(rt; is_numbered(Fault::Sector(9), [2, 3, 0, 9, 0]));
    assert!(rt; is_numbered(Fault::Origin(DeviceFault::Gone(9)), [3, 1, 1, 9, 0]));
    let gone = StoreFault::Device(DeviceFault::Gone(9));
    assert!(rt; is_numbered(Fault::Store(gone), [3, 1, 2, 9, 0]));
    assert!(rt; is_numbered(Fault::State, [4, 3, 0, 0, 0]));
    assert!(rt; is_numbered(Fault::Stopped, [5, 3, 0, 0, 0]));
    assert!(rt; is_numbered(Fault::Invalid, [6, 3, 0, 0, 0]));
    assert!(rt; is_numbered(Fault::Store(StoreFault::Invalid), [6, 2, 2, 0, 0]));
    assert!(rt; is_numbered(Fault::Store(StoreFault::Full(9)), [7, 2, 2, 9, 0]));
    assert!(rt; is_numbered(Fault::ChunkSize(3), [8, 3, 0, 0, 0]));
    assert!(rt; is_numbered(Fault::Misshaped, [9, 3, 0, 0, 0]));
    assert!(rt; is_numbered(Fault::Store(StoreFault::Misshaped), [9, 3, 0, 0, 0]));
    let heads = [HeaderFault::Magic, HeaderFault::Version, HeaderFault::Field];
    for (head, number) in heads.into_iter().zip(10..13) {
        let fault = Fault::Store(StoreFault::Head(head));
        assert!(rt; is_numbered(fault, [number, 2, 2, 0, 0]));
    }
    let damaged = StoreFault::Damaged { area: 1, entry: 31 };
    assert!(rt; is_numbered(Fault::Store(damaged), [13, 2, 2, 1, 31]));
    assert!(rt; is_numbered(Fault::Store(StoreFault::TooMany), [14, 2, 2, 0, 0]));
    Ok(())
}

// A snapshot write goes to the copy of its chunk, which is made first; the origin stays, and the next write to the chunk copies nothing.
#[test]
fn snapshot_writes_copy_first(rt: HostRuntime) -> Result<(), Fail> {
    let mut pair = closed(rt.alloc())?;
    pair.make(2)?;
    let mut work = [7u8; WORK];
    pair.snapshot_write(7, &[b'b'; 512], &mut work)?;
    assert!(rt; work.iter().all(|b| *b == 0));
    pair.snapshot_write(6, &[b'a'; 512], &mut work)?;
    assert_eq!(rt; pair.status().exceptions, 1);
    let mut sector = [0u8; 512];
    pair.snapshot_read(7, &mut sector)?;
    assert_eq!(rt; sector[0], b'b');
    pair.snapshot_read(6, &mut sector)?;
    assert_eq!(rt; sector[511], b'a');
    pair.origin_read(7, &mut sector)?;
    assert_eq!(rt; sector[0], b'o');
    Ok(())
}

// Both lengths are tested before the state, and the state before the place; a wrong length leaves the work buffer alone.
#[test]
fn writes_refuse_in_order(rt: HostRuntime) -> Result<(), Fail> {
    let mut pair = closed(rt.alloc())?;
    let mut work = [7u8; WORK];
    let (short, sector) = ([0u8; 511], [0u8; 512]);
    let (length, state) = (Fault::Length, Fault::State);
    assert_eq!(rt; pair.origin_write(100, &short, &mut work), Err(length));
    assert_eq!(rt; pair.snapshot_write(100, &short, &mut work), Err(length));
    assert_eq!(rt;
        pair.origin_write(100, &sector, &mut [7u8; 511]),
        Err(length)
    );
    assert_eq!(rt;
        pair.snapshot_write(100, &sector, &mut [7u8; 511]),
        Err(length)
    );
    assert!(rt; work.iter().all(|b| *b == 7));
    assert_eq!(rt; pair.origin_write(100, &sector, &mut work), Err(state));
    assert!(rt; work.iter().all(|b| *b == 0));
    assert_eq!(rt; pair.snapshot_write(100, &sector, &mut work), Err(state));
    pair.make(1)?;
    let place = Fault::Sector(100);
    assert_eq!(rt; pair.origin_write(100, &sector, &mut work), Err(place));
    assert_eq!(rt; pair.snapshot_write(100, &sector, &mut work), Err(place));
    Ok(())
}
