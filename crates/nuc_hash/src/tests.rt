use super::*;
use sqlite_items::Items;
use std::alloc::{AllocError, Global};
use std::process::Abort;
use std::test::Fail;

const ZEROS: &str = "bb9f8df61474d25e71fa00722318cd387396ca1736605e1248821cc0de3d3af8";

const ZERO: &str = "6e340b9cffb37a989ca544e6bb780a2c78901d3fb33738768511a30617afa01d";

const HELLO: &str = "2cf24dba5fb0a30e26e83b2ac5b9e29e1b161e5c1fa7425e73043362938b9824";

const HASH_OF_NONE: &str = "e3b0c44298fc1c149afbf4c8996fb92427ae41e4649b934ca495991b7852b855";

const HASH_OF_HELLO: &str = "9595c9df90075148eb06860365df33584b75bff782a510c6cd4883a419833d50";

/// Of one block of zeros.
const HASH_OF_BLOCK: &str = "c7e946d101855255d919ef0c70718633adf77d3dfb3adeeecf5d0cb4e951be58";

/// Of a block of zeros and one more.
const HASH_OF_MORE: &str = "14a4d47f23a30177885d9820122f17d2d3a55fe63f7f5c27b95f689e0b2accd6";

/// Asserts the hash of these bytes and the digests of their blocks, which come from Python's hashlib.
fn assert_content<R: AllocGlobal + Abort>(
    rt: &R,
    content: &Content,
    size: u64,
    hash: &str,
    blocks: &[&str],
) -> Result<(), Fail> {
    assert_eq!(rt; hash_text(rt.alloc(), content.hash())?.as_str(), hash);
    assert_eq!(rt; content.size(), size);
    assert_eq!(rt; content.block_count(), blocks.len());
    assert_eq!(rt; content.blocks().len(), blocks.len());
    for (index, block) in blocks.iter().enumerate() {
        let digest = content.block(index).copied().unwrap_or(Digest([0; 32]));
        assert_eq!(rt; hash_text(rt.alloc(), &digest)?.as_str(), *block);
    }
    Ok(())
}

/// The content of bytes that come in pieces of this length.
fn in_pieces(alloc: Global, bytes: &[u8], length: usize) -> Result<Content, AllocError> {
    let mut hasher = Hasher::new(alloc);
    for piece in bytes.chunks(length.max(1)) {
        hasher.update(piece)?;
    }
    Ok(hasher.finish())
}

#[test]
fn hashes_by_blocks(rt: HostRuntime) -> Result<(), Fail> {
    let alloc = rt.alloc();
    let none = content_of(alloc, b"")?;
    assert_content(&rt, &none, 0, HASH_OF_NONE, &[])?;
    let hello = content_of(alloc, b"hello")?.copy(alloc)?;
    assert_content(&rt, &hello, 5, HASH_OF_HELLO, &[HELLO])?;

    let zeros = vec![in alloc; 0u8; BLOCK + 1]?;
    let more = content_of(alloc, &zeros)?;
    assert_content(&rt, &more, BLOCK as u64 + 1, HASH_OF_MORE, &[ZEROS, ZERO])
}

#[test]
fn hashes_pieces_cut_anywhere(rt: HostRuntime) -> Result<(), Fail> {
    let alloc = rt.alloc();
    let none = Hasher::new(alloc).finish();
    assert_content(&rt, &none, 0, HASH_OF_NONE, &[])?;
    for length in 1..=5 {
        let hello = in_pieces(alloc, b"hello", length)?;
        assert_content(&rt, &hello, 5, HASH_OF_HELLO, &[HELLO])?;
    }

    let mut zeros = vec![in alloc; 0u8; BLOCK]?;
    let whole = in_pieces(alloc, &zeros, BLOCK / 2)?;
    assert_content(&rt, &whole, BLOCK as u64, HASH_OF_BLOCK, &[ZEROS])?;
    zeros.push(0)?;
    // The last piece ends one block and begins the next.
    let more = in_pieces(alloc, &zeros, 1_000_000)?;
    assert_content(&rt, &more, BLOCK as u64 + 1, HASH_OF_MORE, &[ZEROS, ZERO])
}

#[test]
fn takes_the_right_number_of_blocks(rt: HostRuntime) -> Result<(), Fail> {
    let digests = [Digest([0; 32]), Digest([1; 32])];
    let block = BLOCK as u64;
    for (size, right) in [
        (0, 0),
        (1, 1),
        (block, 1),
        (block + 1, 2),
        (2 * block, 2),
        (u64::MAX, 3),
    ] {
        for count in 0..=digests.len() {
            let blocks = Items::from_slice(rt.alloc(), &digests[..count])?;
            assert_eq!(rt; Content::of(size, blocks).is_some(), count == right);
        }
    }
    Ok(())
}

#[test]
fn fills_a_file(rt: HostRuntime) -> Result<(), Fail> {
    let filling = Filling::Given(Items::from_slice(rt.alloc(), b"hello")?);
    let copy = filling.copy(rt.alloc())?;
    assert_eq!(rt; copy.bytes(rt.alloc())?.as_slice(), b"hello".as_slice());
    Ok(())
}

#[test]
fn repeats_a_byte(rt: HostRuntime) -> Result<(), Fail> {
    let filling = Filling::Repeat {
        count: 3,
        byte: b'a',
    };
    let copy = filling.copy(rt.alloc())?;
    assert_eq!(rt; copy.bytes(rt.alloc())?.as_slice(), b"aaa".as_slice());
    Ok(())
}
