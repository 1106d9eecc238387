ghost use Rattle.std.specs.Prelude.{◌<◌, IfOk};
ghost use Rattle.nuc_base.specs.Kinds.{FitsKind};

use super::*;
use nuc_base::{Kind, Name, NameFault, Node, NodeId, Place, TreeLike, Ver};
use nuc_folder::{Item, Key};
use nuc_hash::{BLOCK, Content, Digest};
use nuc_tree::Tree;
use sqlite_items::Items;
use std::alloc::{AllocError, Global};
use std::test::Fail;

/// An item's key, its parent's, a file's size, and the name.
pub(crate) type Line = (u64, u64, Option<u64>, &'static [u8]);

/// A content of this size, of which only the size matters here.
pub(crate) fn content(alloc: Global, size: u64) -> Result<Option<Content>, AllocError> {
    let mut blocks = Items::new(alloc);
    for _ in 0..size.div_ceil(BLOCK as u64) {
        blocks.push(Digest([0; 32]))?;
    }
    Ok(Content::of(size, blocks))
}

pub(crate) fn item(alloc: Global, line: Line) -> Result<Item, AllocError> {
    let (key, parent, size, name) = line;
    let content = match size {
        Some(size) => content(alloc, size)?,
        None => None,
    };
    Ok(Item {
        key: Key(key),
        parent: Key(parent),
        content,
        name: Items::from_slice(alloc, name)?,
        bit: false,
    })
}

pub(crate) fn file(alloc: Global, name: &[u8], ver: u64) -> Result<Node, NameFault>
    requires { 0 < ver }
    ensures { IfOk result FitsKind }
{
    let name = Name::new(alloc, name)?;
    let place = Place {
        parent: NodeId(0),
        name,
    };
    Ok(Node {
        place,
        kind: Kind::File,
        ver: Ver(ver),
        bit: false,
    })
}

/// Where Local has the file 1, whose key is 5.
fn first_bad_of(alloc: Global, lines: &[Line]) -> Result<Option<u64>, Fail> {
    let mut local = Tree::new(alloc);
    local.put(NodeId(1), file(alloc, b"f", 1)?)?;
    let binding = Binding {
        id: NodeId(1),
        key: Key(5),
    };
    let keys = Keys::of(alloc, &[binding])?;
    let mut items = Vec::new(alloc);
    for line in lines {
        items.push(item(alloc, *line)?)?;
    }
    Ok(first_bad(alloc, &items, &keys, &local)?)
}

#[test]
fn finds_a_bad_key_or_place(rt: HostRuntime) -> Result<(), Fail> {
    for (second, want) in [
        ((2, 0, None, b"a".as_slice()), Some(2)),
        ((1, 0, None, b"b".as_slice()), Some(2)),
        ((0, 0, None, b"b".as_slice()), Some(2)),
        ((2, 1, None, b"a".as_slice()), None),
        ((2, 0, None, b"b".as_slice()), None),
        ((2, 3, None, b"b".as_slice()), Some(2)),
        ((2, 2, None, b"b".as_slice()), Some(2)),
    ] {
        let first = (1, 0, None, b"a".as_slice());
        assert_eq!(rt; first_bad_of(rt.alloc(), &[first, second])?, want);
    }
    Ok(())
}

#[test]
fn finds_a_bad_parent_name_size_or_kind(rt: HostRuntime) -> Result<(), Fail> {
    for (second, want) in [
        ((2, 1, None, b"b".as_slice()), Some(2)),
        ((2, 0, Some(67_108_864), b"b".as_slice()), None),
        ((2, 0, Some(67_108_865), b"b".as_slice()), Some(2)),
        ((2, 0, Some(0), b"..".as_slice()), Some(2)),
        ((2, 0, Some(0), b"a/b".as_slice()), Some(2)),
        ((5, 0, Some(3), b"g".as_slice()), None),
        ((5, 0, None, b"f".as_slice()), Some(2)),
    ] {
        let first = (1, 0, Some(1), b"a".as_slice());
        assert_eq!(rt; first_bad_of(rt.alloc(), &[first, second])?, want);
    }
    Ok(())
}
