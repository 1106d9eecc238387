use super::*;
use nuc_blocks::{AssembleFault, Store};
use nuc_hash::{BLOCK, Digest};
use std::alloc::{AllocError, Global};
use std::test::Fail;

/// The SHA-256 of one zero byte, from Python's hashlib.
const OF_ZERO: Digest = Digest([
    0x6e, 0x34, 0x0b, 0x9c, 0xff, 0xb3, 0x7a, 0x98, 0x9c, 0xa5, 0x44, 0xe6, 0xbb, 0x78, 0x0a, 0x2c,
    0x78, 0x90, 0x1d, 0x3f, 0xb3, 0x37, 0x38, 0x76, 0x85, 0x11, 0xa3, 0x06, 0x17, 0xaf, 0xa0, 0x1d,
]);

fn zeros(alloc: Global, count: usize) -> Result<Prepared, AllocError> {
    let bytes = vec![in alloc; 0u8; count]?;
    prepare(alloc, &bytes)
}

#[test]
fn uploads_each_block_once(rt: HostRuntime) -> Result<(), Fail> {
    let alloc = rt.alloc();
    let mut store = Store::new(alloc);
    let one_more = zeros(alloc, BLOCK + 1)?;
    assert_eq!(rt; upload(alloc, &one_more, &mut store)?, 2);
    assert_eq!(rt; upload(alloc, &one_more, &mut store)?, 0);
    let twice = zeros(alloc, 2 * BLOCK)?;
    assert_eq!(rt; upload(alloc, &twice, &mut Store::new(alloc))?, 1);

    let back = download(alloc, one_more.content(), &store)?;
    assert_eq!(rt; back.len(), BLOCK + 1);
    assert!(rt; back.as_slice() == one_more.bytes());
    Ok(())
}

#[test]
fn names_the_block_that_lacks(rt: HostRuntime) -> Result<(), Fail> {
    let alloc = rt.alloc();
    let mut store = Store::new(alloc);
    let one_more = zeros(alloc, BLOCK + 1)?;
    upload(alloc, &zeros(alloc, BLOCK)?, &mut store)?;
    match download(alloc, one_more.content(), &store) {
        Err(fault) => assert_eq!(rt; fault, AssembleFault::NoBlock(OF_ZERO)),
        Ok(_) => assert!(rt; false),
    }
    Ok(())
}

#[test]
fn lends_blocks(rt: HostRuntime) -> Result<(), Fail> {
    let one_more = zeros(rt.alloc(), BLOCK + 1)?;
    for (index, want) in [
        (0, Some(BLOCK)),
        (1, Some(1)),
        (2, None),
        (usize::MAX, None),
    ] {
        assert_eq!(rt; one_more.block(index).map(|block| block.len()), want);
    }
    Ok(())
}
