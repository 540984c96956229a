// What a store answers, on examples with chunks of one sector, and of two for data.
use crate::{Store, StoreFault, WORK};
use device::{Device, DeviceFault, FuseDevice, PlainDevice, PowerCut, SECTOR};
use exceptions::ExceptionTable;
use layout::{ChunkSize, Exception, Header, HeaderFault, encode_header, picture};
use std::alloc::Global;
use std::test::Fail;

// The sectors of the origin, which are its chunks as well.
const ORIGIN: u32 = 100;

// An empty store, made on a device of junk.
fn made(heap: Global) -> Result<Store<PlainDevice>, Fail> {
    made_on(heap, 60, ChunkSize::One)
}

// The same with so many sectors, and chunks of a size.
fn made_on(heap: Global, sectors: u16, size: ChunkSize) -> Result<Store<PlainDevice>, Fail> {
    let cow = PlainDevice::new(vec![in heap; b'j'; 512 * usize::from(sectors)]?);
    let mut store = Store::new(cow, ExceptionTable::new(heap)?);
    store.make(size)?;
    Ok(store)
}

// Opens what stands on a device.
fn opened<C: Device + Drop>(heap: Global, cow: C) -> Result<Store<C>, Fail> {
    let mut store = Store::new(cow, ExceptionTable::new(heap)?);
    store.open(ORIGIN, &mut [0u8; WORK])?;
    Ok(store)
}

#[test]
fn entered_are_found(rt: HostRuntime) -> Result<(), Fail> {
    let mut store = made(rt.alloc())?;
    store.enter(ORIGIN, 7)?;
    store.enter(ORIGIN, 3)?;
    assert_eq!(rt; store.enter(ORIGIN, 7), Err(StoreFault::Chunk(7)));
    let (cow, _) = store.into_parts();
    let store = opened(rt.alloc(), cow)?;
    assert_eq!(rt; store.exceptions().len(), 2);
    assert_eq!(rt; store.lookup(7), Some(2));
    assert_eq!(rt; store.lookup(3), Some(3));
    assert_eq!(rt; store.next_place(), Some(4));
    Ok(())
}

// Of three exceptions the last is a run by itself, and the two before it are one run.
#[test]
fn runs_are_dropped(rt: HostRuntime) -> Result<(), Fail> {
    let mut store = made(rt.alloc())?;
    store.enter(ORIGIN, 7)?;
    store.enter(ORIGIN, 8)?;
    store.enter(ORIGIN, 3)?;
    store.drop_last_run()?;
    let (cow, _) = store.into_parts();
    let mut store = opened(rt.alloc(), cow)?;
    assert_eq!(rt; store.exceptions().len(), 2);
    assert_eq!(rt; store.lookup(3), None);
    assert_eq!(rt; store.last_run(), 2);
    store.drop_last_run()?;
    let (cow, _) = store.into_parts();
    assert!(rt; opened(rt.alloc(), cow)?.exceptions().is_empty());
    Ok(())
}

#[test]
fn spoilt_is_invalid(rt: HostRuntime) -> Result<(), Fail> {
    let mut store = made(rt.alloc())?;
    store.enter(ORIGIN, 7)?;
    store.spoil()?;
    assert_eq!(rt;
        store.open(ORIGIN, &mut [0u8; WORK]),
        Err(StoreFault::Invalid)
    );
    assert!(rt; store.exceptions().is_empty());
    Ok(())
}

// Entering flushes, writes and flushes. Only what a plain device took before the fuse went is found afterwards.
#[test]
fn gone_inside_enter(rt: HostRuntime) -> Result<(), Fail> {
    for k in 0..4 {
        let mut store = made(rt.alloc())?;
        store.enter(ORIGIN, 7)?;
        let (cow, _) = store.into_parts();
        let mut store = opened(rt.alloc(), FuseDevice::new(cow, k))?;
        match store.enter(ORIGIN, 3) {
            Ok(()) => assert!(rt; k == 3),
            Err(StoreFault::Device(DeviceFault::Gone(_))) => assert!(rt; k < 3),
            Err(_) => return Err(Fail::new("another fault")),
        }
        let (fuse, _) = store.into_parts();
        let store = opened(rt.alloc(), fuse.power_cut().ok_or("no power")?)?;
        assert_eq!(rt; store.lookup(7), Some(2));
        assert_eq!(rt; store.lookup(3).is_some(), k >= 2);
    }
    Ok(())
}

// Chunk 2 has sectors 4 and 5; an odd sector of the origin has the second of them in a copy there.
#[test]
fn data_chunks(rt: HostRuntime) -> Result<(), Fail> {
    let mut store = made(rt.alloc())?;
    store.make(ChunkSize::Two)?;
    store.chunk_write(2, &[b'a'; 1024])?;
    store.copy_write(2, 7, &[b'b'; 512])?;
    let mut chunk = [0u8; 1024];
    store.chunk_read(2, &mut chunk)?;
    assert_eq!(rt; chunk[511], b'a');
    assert_eq!(rt; chunk[512], b'b');
    let mut sector = [0u8; 512];
    store.copy_read(2, 7, &mut sector)?;
    assert_eq!(rt; sector[0], b'b');
    assert_eq!(rt; store.chunk_read(2, &mut sector), Err(StoreFault::Length));
    assert_eq!(rt; store.chunk_read(1, &mut chunk), Err(StoreFault::Chunk(1)));
    assert_eq!(rt; sector[0], b'b');
    assert_eq!(rt; chunk[1023], b'b');
    assert_eq!(rt;
        store.copy_read(30, 7, &mut sector),
        Err(StoreFault::Chunk(30))
    );
    Ok(())
}

// A sector of another length is refused first, and one outside the data chunks next; nothing is read or written.
#[test]
fn data_refusals(rt: HostRuntime) -> Result<(), Fail> {
    let mut store = made(rt.alloc())?;
    let mut sector = [7u8; 512];
    for (at, len, fault) in [
        (1, 511, StoreFault::Length),
        (1, 512, StoreFault::Sector(1)),
        (34, 512, StoreFault::Sector(34)),
        (60, 512, StoreFault::Sector(60)),
    ] {
        assert_eq!(rt; store.data_read(at, &mut sector[..len]), Err(fault));
        assert_eq!(rt; store.data_write(at, &sector[..len]), Err(fault));
    }
    assert_eq!(rt; sector[0], 7);
    Ok(())
}

// The old chunk is tested before the place: three chunks have a place for one exception.
#[test]
fn enter_refusals(rt: HostRuntime) -> Result<(), Fail> {
    let mut store = made_on(rt.alloc(), 3, ChunkSize::One)?;
    store.enter(ORIGIN, 7)?;
    assert_eq!(rt; store.enter(ORIGIN, 7), Err(StoreFault::Chunk(7)));
    assert_eq!(rt;
        store.enter(ORIGIN, ORIGIN.into()),
        Err(StoreFault::Chunk(100))
    );
    assert_eq!(rt; store.enter(ORIGIN, 99), Err(StoreFault::Full(99)));
    assert_eq!(rt; store.exceptions().len(), 1);
    Ok(())
}

// OPENING WHAT NO STORE WROTE

// An image with chunks of one sector: areas are chunks 1, 34 and so on, and have a list of exceptions.
fn image(heap: Global, sectors: u16, list: &[Exception]) -> Result<PlainDevice, Fail> {
    let mut cow = PlainDevice::new(vec![in heap; 0u8; 512 * usize::from(sectors)]?);
    cow.write(0, &header([b'S', 1, 1, 1]))?;
    for area in 0..65 {
        let sector = 1 + 33 * area;
        if sector < cow.sectors() {
            cow.write(sector, &picture(list, area))?;
        }
    }
    Ok(cow)
}

// A header by the low bytes of its magic, valid, version and sectors of a chunk.
fn header([magic, valid, version, c]: [u8; 4]) -> [u8; SECTOR] {
    let size = ChunkSize::One;
    let mut out = encode_header(Header { valid: true, size });
    out[0] = magic;
    out[4] = valid;
    out[8] = version;
    out[12] = c;
    out
}

// Exceptions as a store with chunks of one sector enters the old chunks 0, 1 and so on.
fn grow(list: &mut [Exception]) {
    for (n, e) in (0u32..2049).zip(list) {
        let old = u64::from(n);
        *e = Exception {
            old,
            new: 2 + old + old / 32,
        };
    }
}

// What an opening answers, for an origin of so many sectors.
fn answer(heap: Global, origin: u32, cow: PlainDevice) -> Result<Result<(), StoreFault>, Fail> {
    let mut store = Store::new(cow, ExceptionTable::new(heap)?);
    Ok(store.open(origin, &mut [0u8; WORK]))
}

// Each header but the last fails a later test as well.
#[test]
fn headers_are_judged(rt: HostRuntime) -> Result<(), Fail> {
    for (origin, numbers, fault) in [
        (101, [0, 2, 2, 3], StoreFault::Head(HeaderFault::Magic)),
        (101, [b'S', 2, 2, 3], StoreFault::Head(HeaderFault::Version)),
        (101, [b'S', 0, 1, 3], StoreFault::Head(HeaderFault::Field)),
        (101, [b'S', 2, 1, 2], StoreFault::Head(HeaderFault::Field)),
        (101, [b'S', 0, 1, 2], StoreFault::Misshaped),
        // two chunks of 16 sectors
        (160, [b'S', 0, 1, 16], StoreFault::Misshaped),
        (160, [b'S', 0, 1, 8], StoreFault::Invalid),
    ] {
        let mut cow = image(rt.alloc(), 40, &[])?;
        cow.write(0, &header(numbers))?;
        assert_eq!(rt; answer(rt.alloc(), origin, cow)?, Err(fault));
    }
    Ok(())
}

// An old chunk that the origin lacks or that is repeated, a new one that is repeated, in an area or not on the device.
#[test]
fn entries_are_judged(rt: HostRuntime) -> Result<(), Fail> {
    let first = Exception { old: 7, new: 2 };
    for (old, new) in [(100, 3), (7, 3), (8, 2), (8, 1), (8, 34), (8, 40)] {
        let cow = image(rt.alloc(), 40, &[first, Exception { old, new }])?;
        assert_eq!(rt;
            answer(rt.alloc(), ORIGIN, cow)?,
            Err(StoreFault::Damaged { area: 0, entry: 1 })
        );
    }
    Ok(())
}

// The last entry of a full area is damaged where the next area is not on the device.
#[test]
fn full_areas_are_judged(rt: HostRuntime) -> Result<(), Fail> {
    let mut full = [Exception { old: 0, new: 0 }; 32];
    grow(&mut full);
    let cow = image(rt.alloc(), 34, &full)?;
    assert_eq!(rt;
        answer(rt.alloc(), ORIGIN, cow)?,
        Err(StoreFault::Damaged { area: 0, entry: 31 })
    );
    let mut more = [Exception { old: 0, new: 0 }; 34];
    grow(&mut more);
    let cow = image(rt.alloc(), 40, &more)?;
    assert_eq!(rt; answer(rt.alloc(), ORIGIN, cow)?, Ok(()));
    let cow = image(rt.alloc(), 40, &more)?;
    assert_eq!(rt;
        answer(rt.alloc(), 33, cow)?,
        Err(StoreFault::Damaged { area: 1, entry: 1 })
    );
    Ok(())
}

// The 2,049th entry is one too many, before it is found that the origin lacks its old chunk.
#[test]
fn too_many_entries(rt: HostRuntime) -> Result<(), Fail> {
    let mut most = [Exception { old: 0, new: 0 }; 2048];
    grow(&mut most);
    let cow = image(rt.alloc(), 2200, &most)?;
    assert_eq!(rt; answer(rt.alloc(), 2048, cow)?, Ok(()));
    let mut more = [Exception { old: 0, new: 0 }; 2049];
    grow(&mut more);
    let cow = image(rt.alloc(), 2200, &more)?;
    assert_eq!(rt; answer(rt.alloc(), 2048, cow)?, Err(StoreFault::TooMany));
    Ok(())
}

// A buffer of another length is not touched; any other is zeros again.
#[test]
fn work_is_given_back(rt: HostRuntime) -> Result<(), Fail> {
    let mut store = made(rt.alloc())?;
    let mut work = [7u8; WORK];
    assert_eq!(rt; store.open(ORIGIN, &mut work[1..]), Err(StoreFault::Length));
    assert!(rt; work.iter().all(|b| *b == 7));
    store.open(ORIGIN, &mut work)?;
    assert!(rt; work.iter().all(|b| *b == 0));
    Ok(())
}

// A cut inside a drop may keep the run's second sector and not its first. What is left of the run goes at the next opening.
#[test]
fn torn_run_is_cleaned(rt: HostRuntime) -> Result<(), Fail> {
    let olds = ORIGIN / 2;
    let mut store = made_on(rt.alloc(), 100, ChunkSize::Two)?;
    store.enter(olds, 49)?;
    for old in 0..40 {
        store.enter(olds, old)?;
    }
    let mut second = [0u8; SECTOR];
    let mut found = [0u8; SECTOR];
    let (mut cow, _) = store.into_parts();
    cow.read(3, &mut second)?;
    let mut store = opened(rt.alloc(), cow)?;
    store.drop_last_run()?;
    assert_eq!(rt; store.exceptions().len(), 1);
    let (mut cow, _) = store.into_parts();
    cow.write(3, &second)?;
    let store = opened(rt.alloc(), cow)?;
    assert_eq!(rt; store.exceptions().len(), 1);
    assert_eq!(rt; store.lookup(49), Some(2));
    let (mut cow, _) = store.into_parts();
    cow.read(3, &mut found)?;
    assert!(rt; second.iter().any(|b| *b > 0));
    assert!(rt; found.iter().all(|b| *b == 0));
    Ok(())
}
