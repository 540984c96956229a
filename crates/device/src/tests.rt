// What the devices answer, on examples.
use crate::{
    Device, DeviceFault, FuseDevice, PlainDevice, PowerCut, read_sectors, write_sectors,
    write_zeros,
};
use std::alloc::{AllocError, Global};
use std::test::Fail;

fn disk(heap: Global, bytes: usize) -> Result<PlainDevice, AllocError> {
    Ok(PlainDevice::new(vec![in heap; b'o'; bytes]?))
}

// Bytes with no sector and part of one are unfit, and make one sector that is gone.
#[test]
fn plain_fits(rt: HostRuntime) -> Result<(), Fail> {
    let bytes = vec![in rt.alloc(); 0u8; 1024]?;
    assert_eq!(rt; PlainDevice::fits(&bytes[..0]), Err(DeviceFault::Length));
    assert_eq!(rt; PlainDevice::fits(&bytes[..511]), Err(DeviceFault::Length));
    assert_eq!(rt; PlainDevice::fits(&bytes[..512]), Ok(()));
    assert_eq!(rt; PlainDevice::fits(&bytes[..513]), Err(DeviceFault::Length));
    let mut part = disk(rt.alloc(), 513)?;
    assert_eq!(rt; part.sectors(), 1);
    assert!(rt; !part.is_on());
    assert_eq!(rt; part.flush(), Err(DeviceFault::Gone(0)));
    assert!(rt; part.power_cut().is_none());
    Ok(())
}

// Length is tested before place, and place before gone.
#[test]
fn refusals_in_order(rt: HostRuntime) -> Result<(), Fail> {
    let mut buffer = [7u8; 511];
    let mut sector = [7u8; 512];
    let mut gone = FuseDevice::new(disk(rt.alloc(), 1024)?, 0);
    assert_eq!(rt; gone.write(1, &sector), Err(DeviceFault::Gone(1)));
    assert_eq!(rt; gone.read(2, &mut buffer), Err(DeviceFault::Length));
    assert_eq!(rt; gone.read(2, &mut sector), Err(DeviceFault::Place(2)));
    assert_eq!(rt; gone.read(1, &mut sector), Err(DeviceFault::Gone(1)));
    assert_eq!(rt; sector[0], 7);
    assert_eq!(rt; gone.write(2, &buffer), Err(DeviceFault::Length));
    assert_eq!(rt; gone.write(2, &sector), Err(DeviceFault::Place(2)));
    assert_eq!(rt; gone.flush(), Err(DeviceFault::Gone(0)));
    Ok(())
}

// A fuse of two passes on a write and a flush, counts no refused call and no read, and goes inside the next flush.
#[test]
fn fuse_of_two(rt: HostRuntime) -> Result<(), Fail> {
    let mut fuse = FuseDevice::new(disk(rt.alloc(), 1024)?, 2);
    let mut sector = [0u8; 512];
    assert_eq!(rt; fuse.write(2, &sector), Err(DeviceFault::Place(2)));
    fuse.read(1, &mut sector)?;
    assert_eq!(rt; sector[511], b'o');
    fuse.write(1, &[b'n'; 512])?;
    fuse.flush()?;
    fuse.read(1, &mut sector)?;
    assert_eq!(rt; sector[0], b'n');
    assert!(rt; fuse.is_on());
    assert_eq!(rt; fuse.flush(), Err(DeviceFault::Gone(0)));
    assert!(rt; !fuse.is_on());
    let bytes = fuse.into_inner().into_bytes();
    assert_eq!(rt; bytes.len(), 1024);
    assert_eq!(rt; bytes[511], b'o');
    assert_eq!(rt; bytes[512], b'n');
    Ok(())
}

// What a power cut leaves of a fuse, and ranges of sectors over it.
#[test]
fn ranges_after_a_cut(rt: HostRuntime) -> Result<(), Fail> {
    let mut fuse = FuseDevice::new(disk(rt.alloc(), 4 * 512)?, 2);
    assert_eq!(rt; write_zeros(&mut fuse, 1, 3), Err(DeviceFault::Gone(3)));
    let mut left = fuse.power_cut().ok_or("no power")?;
    let mut buffer = [7u8; 1536];
    assert_eq!(rt;
        read_sectors(&mut left, 2, &mut buffer),
        Err(DeviceFault::Place(4))
    );
    assert_eq!(rt; buffer[511], 0);
    assert_eq!(rt; buffer[512], b'o');
    assert_eq!(rt; buffer[1024], 7);
    write_sectors(&mut left, 0, &buffer)?;
    // from 0, since the bound of `..100` stays open at an array
    assert_eq!(rt;
        write_sectors(&mut left, 0, &buffer[0..100]),
        Err(DeviceFault::Length)
    );
    let bytes = left.into_bytes();
    assert_eq!(rt; bytes.len(), 2048);
    assert_eq!(rt; bytes[1024], 7);
    assert_eq!(rt; bytes[1536], b'o');
    Ok(())
}
