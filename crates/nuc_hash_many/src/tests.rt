use super::*;
use nuc_hash::hash_text;
use std::alloc::{AllocError, Global};
use std::test::Fail;

/// The content hashes of `hello`, `one` and no bytes, from Python's hashlib.
const HASHES: [&str; 3] = [
    "9595c9df90075148eb06860365df33584b75bff782a510c6cd4883a419833d50",
    "fe8d7a873dc48961a6af334c996b2cb3ce37149d5ce9c9253952a54c6a92c1ad",
    "e3b0c44298fc1c149afbf4c8996fb92427ae41e4649b934ca495991b7852b855",
];

fn files(alloc: Global) -> Result<Vec<Vec<u8>>, AllocError> {
    let mut files = Vec::new(alloc);
    for text in ["hello", "one", ""] {
        files.push(Vec::from_slice(alloc, text.as_bytes())?)?;
    }
    Ok(files)
}

#[test]
fn hashes_in_order(rt: HostRuntime) -> Result<(), Fail> {
    let alloc = rt.alloc();
    let contents = content_of_many(&rt, alloc, &files(alloc)?)?;
    assert_eq!(rt; contents.len(), HASHES.len());
    for (content, hash) in contents.iter().zip(&HASHES) {
        assert_eq!(rt; hash_text(alloc, content.hash())?.as_str(), *hash);
    }
    Ok(())
}
