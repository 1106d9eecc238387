use crate::mem_trial::{HELLO, Spot, Trial, name};
use crate::{Key, KeyPlace, MemFolder, Shelved, ShelvedFault};
use sqlite_items::Items;
use std::alloc::{AllocError, Global};
use std::process::Abort;

fn folder(rt: &impl Abort, alloc: Global, key: u64, spot: Spot) -> Shelved {
    Shelved {
        key: Key(key),
        place: KeyPlace {
            parent: Key(spot.0),
            name: name(rt, alloc, spot.1),
        },
        bytes: None,
        bit: false,
    }
}

/// A file that holds `hello`, with the bit.
fn file(rt: &impl Abort, alloc: Global, key: u64, spot: Spot) -> Result<Shelved, AllocError> {
    let bytes = Items::from_slice(alloc, HELLO.bytes)?;
    let mut row = folder(rt, alloc, key, spot);
    row.bytes = Some(bytes);
    row.bit = true;
    Ok(row)
}

#[test]
fn a_file_may_come_before_its_folder(rt: HostRuntime) -> Result<(), AllocError> {
    let alloc = rt.alloc();
    let mut rows = Vec::new(alloc);
    rows.push(folder(&rt, alloc, 4, (0, b"d")))?;
    rows.push(file(&rt, alloc, 2, (5, b"f"))?)?;
    rows.push(folder(&rt, alloc, 5, (4, b"e")))?;
    let Ok(folder) = MemFolder::of(alloc, rows, 6) else {
        panic!(rt; "no folder")
    };
    let trial = Trial { alloc, folder };
    trial.holds(
        &rt,
        &[
            (4, (0, b"d"), None, false),
            (5, (4, b"e"), None, false),
            (2, (5, b"f"), Some(HELLO), true),
        ],
    );
    Ok(())
}

#[test]
fn a_row_needs_its_parent(rt: HostRuntime) -> Result<(), AllocError> {
    let alloc = rt.alloc();
    let mut rows = Vec::new(alloc);
    rows.push(file(&rt, alloc, 2, (5, b"f"))?)?;
    match MemFolder::of(alloc, rows, 6) {
        Ok(_) => panic!(rt; "a folder"),
        Err(fault) => assert_eq!(rt; fault, ShelvedFault::NoParent(Key(2))),
    }
    Ok(())
}
