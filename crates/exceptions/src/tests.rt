// What a table answers, on examples.
use crate::{ExceptionTable, TableFault, follows};
use layout::{ChunkSize, Exception};
use std::alloc::Global;
use std::test::Fail;

// A run of three exceptions, and one by itself.
fn four(heap: Global) -> Result<ExceptionTable, Fail> {
    let mut table = ExceptionTable::new(heap)?;
    for (old, new) in [(5, 2), (6, 3), (7, 4), (3, 5)] {
        let pushed = table.push(Exception { old, new });
        pushed.map_err(|_| "a push is refused")?;
    }
    Ok(table)
}

#[test]
fn looks_up(rt: HostRuntime) -> Result<(), Fail> {
    let mut table = four(rt.alloc())?;
    assert_eq!(rt; table.len(), 4);
    assert_eq!(rt; table.lookup(7), Some(4));
    assert_eq!(rt; table.lookup(4), None);
    assert!(rt; table.holds_new(4));
    assert!(rt; !table.holds_new(7));
    let wide = Exception {
        old: 0x1_0000_0000,
        new: 6,
    };
    assert_eq!(rt; table.push(wide), Err(TableFault::TooWide));
    assert_eq!(rt; table.len(), 4);
    table.clear();
    assert_eq!(rt; table.lookup(7), None);
    Ok(())
}

// Both numbers rise by one.
#[test]
fn follows_in_both(rt: HostRuntime) -> Result<(), Fail> {
    let a = Exception { old: 5, new: 2 };
    assert!(rt; follows(a, Exception { old: 6, new: 3 }));
    assert!(rt; !follows(a, Exception { old: 6, new: 2 }));
    assert!(rt; !follows(a, Exception { old: 5, new: 3 }));
    assert!(rt; !follows(a, Exception { old: 4, new: 1 }));
    let last = Exception {
        old: u64::MAX,
        new: u64::MAX,
    };
    assert!(rt; !follows(last, Exception { old: 0, new: 0 }));
    Ok(())
}

// The last run goes first: one exception, then three, then there is none.
#[test]
fn drops_runs(rt: HostRuntime) -> Result<(), Fail> {
    let mut table = four(rt.alloc())?;
    let size = ChunkSize::One;
    assert_eq!(rt; table.last_run(size), 1);
    table.truncate(3);
    assert_eq!(rt; table.last_run(size), 3);
    table.truncate(0);
    assert_eq!(rt; table.last_run(size), 0);
    Ok(())
}

// An exception that fills an area needs the next area on the device, and the place after it skips that area.
#[test]
fn fills_an_area(rt: HostRuntime) -> Result<(), Fail> {
    let mut table = ExceptionTable::new(rt.alloc())?;
    let size = ChunkSize::One;
    assert_eq!(rt; table.next_place(size, 2), None);
    for old in 0..31 {
        let new = table.next_place(size, 34).ok_or("no room")?;
        assert_eq!(rt; table.push(Exception { old, new }), Ok(()));
    }
    assert_eq!(rt; table.next_place(size, 34), None);
    assert_eq!(rt; table.next_place(size, 35), Some(33));
    assert_eq!(rt; table.push(Exception { old: 31, new: 33 }), Ok(()));
    assert_eq!(rt; table.next_place(size, 35), None);
    assert_eq!(rt; table.next_place(size, 36), Some(35));
    assert_eq!(rt; table.allocated(size), 35);
    assert_eq!(rt; table.metadata(size), 2);
    Ok(())
}

// A full table refuses, whatever the numbers are.
#[test]
fn refuses_when_full(rt: HostRuntime) -> Result<(), Fail> {
    let mut table = ExceptionTable::new(rt.alloc())?;
    for old in 0..2048 {
        assert_eq!(rt; table.push(Exception { old, new: old + 2 }), Ok(()));
    }
    assert!(rt; table.is_full());
    let wide = Exception {
        old: 0x1_0000_0000,
        new: 6,
    };
    assert_eq!(rt; table.push(wide), Err(TableFault::Full));
    assert_eq!(rt; table.len(), 2048);
    Ok(())
}
