use super::*;
use nuc_hash::{BLOCK, Digest};
use sqlite_items::Items;
use std::test::Fail;

// The digests come from Python's hashlib.

const OF_NONE: Digest = Digest([
    0xe3, 0xb0, 0xc4, 0x42, 0x98, 0xfc, 0x1c, 0x14, 0x9a, 0xfb, 0xf4, 0xc8, 0x99, 0x6f, 0xb9, 0x24,
    0x27, 0xae, 0x41, 0xe4, 0x64, 0x9b, 0x93, 0x4c, 0xa4, 0x95, 0x99, 0x1b, 0x78, 0x52, 0xb8, 0x55,
]);

const OF_A: Digest = Digest([
    0xca, 0x97, 0x81, 0x12, 0xca, 0x1b, 0xbd, 0xca, 0xfa, 0xc2, 0x31, 0xb3, 0x9a, 0x23, 0xdc, 0x4d,
    0xa7, 0x86, 0xef, 0xf8, 0x14, 0x7c, 0x4e, 0x72, 0xb9, 0x80, 0x77, 0x85, 0xaf, 0xee, 0x48, 0xbb,
]);

const OF_B: Digest = Digest([
    0x3e, 0x23, 0xe8, 0x16, 0x00, 0x39, 0x59, 0x4a, 0x33, 0x89, 0x4f, 0x65, 0x64, 0xe1, 0xb1, 0x34,
    0x8b, 0xbd, 0x7a, 0x00, 0x88, 0xd4, 0x2c, 0x4a, 0xcb, 0x73, 0xee, 0xae, 0xd5, 0x9c, 0x00, 0x9d,
]);

/// Of a block of zeros.
const OF_BLOCK: Digest = Digest([
    0xbb, 0x9f, 0x8d, 0xf6, 0x14, 0x74, 0xd2, 0x5e, 0x71, 0xfa, 0x00, 0x72, 0x23, 0x18, 0xcd, 0x38,
    0x73, 0x96, 0xca, 0x17, 0x36, 0x60, 0x5e, 0x12, 0x48, 0x82, 0x1c, 0xc0, 0xde, 0x3d, 0x3a, 0xf8,
]);

/// Of a block of zeros and one more.
const OF_MORE: Digest = Digest([
    0x95, 0xe4, 0x41, 0xca, 0x65, 0xcd, 0x41, 0xfa, 0x01, 0xb2, 0xa7, 0x17, 0x99, 0xe7, 0x9f, 0xd6,
    0x0d, 0xb5, 0x9e, 0xd3, 0x4f, 0x13, 0xaf, 0x32, 0xa9, 0x1e, 0x85, 0xf9, 0x03, 0x78, 0x67, 0x6c,
]);

#[test]
fn refuses_bytes_of_another_digest(rt: HostRuntime) -> Result<(), Fail> {
    let alloc = rt.alloc();
    let mut store = Store::new(alloc);
    assert_eq!(rt;
        store.put(alloc, &OF_NONE, b"a"),
        Err(StoreFault::Wrong(OF_A))
    );
    assert!(rt; store.is_empty());
    Ok(())
}

#[test]
fn takes_a_full_block_and_no_more(rt: HostRuntime) -> Result<(), Fail> {
    let alloc = rt.alloc();
    let mut store = Store::new(alloc);
    let mut zeros = vec![in alloc; 0u8; BLOCK]?;
    store.put(alloc, &OF_BLOCK, &zeros)?;
    zeros.push(0)?;
    assert_eq!(rt;
        store.put(alloc, &OF_MORE, &zeros),
        Err(StoreFault::TooLong(4_194_305))
    );
    assert!(rt; store.has(&OF_BLOCK));
    Ok(())
}

#[test]
fn assembles_what_it_keeps(rt: HostRuntime) -> Result<(), Fail> {
    let alloc = rt.alloc();
    let mut store = Store::new(alloc);
    store.put(alloc, &OF_A, b"a")?;
    store.put_owned(&OF_B, Items::from_slice(alloc, b"b")?)?;
    store.put(alloc, &OF_A, b"a")?;
    assert_eq!(rt; store.len(), 2);

    let list = [OF_A, OF_NONE, OF_B, OF_MORE];
    let mut flags = [false; 4];
    store.missing(&list, &mut flags);
    assert_eq!(rt; flags, [false, true, false, true]);
    assert_eq!(rt; store.first_missing(&list), Some(OF_NONE));
    match store.assemble(alloc, &list) {
        Err(fault) => assert_eq!(rt; fault, AssembleFault::NoBlock(OF_NONE)),
        Ok(_) => assert!(rt; false),
    }
    let bytes = store.assemble(alloc, &[OF_B, OF_A, OF_B])?;
    assert_eq!(rt; bytes.as_slice(), b"bab".as_slice());
    Ok(())
}

#[test]
fn goes_back_to_what_was_settled(rt: HostRuntime) -> Result<(), Fail> {
    let alloc = rt.alloc();
    let mut store = Store::new(alloc);
    store.put(alloc, &OF_B, b"b")?;
    store.settle();
    store.put(alloc, &OF_A, b"a")?;
    assert_eq!(rt; store.entry(1).map(|block| block.0), Some(OF_A));
    assert_eq!(rt; store.settled_len(), 1);
    store.back();
    assert_eq!(rt; store.len(), 1);
    assert_eq!(rt; store.first_missing(&[OF_B, OF_A]), Some(OF_A));
    assert_eq!(rt; store.get(&OF_B), Some(b"b".as_slice()));
    Ok(())
}
