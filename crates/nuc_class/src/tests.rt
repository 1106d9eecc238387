//! Targets and splits, by the values of one identity.
ghost use Rattle.std.specs.Prelude.{◌==◌, ◌%◌};

use crate::{needs_split, target, value_eq};
use nuc_base::{Hashes, Kind, Name, NameFault, Node, NodeId, Place, Ver};
use std::alloc::Global;
use std::test::Fail;

/// Contents that are as their versions' last digits.
pub struct LastDigit;

impl Hashes for LastDigit {
    ghost same = { λ _ a b. a % 10 == b % 10 };

    fn same(&self, a: Ver, b: Ver) -> bool {
        a.0 % 10 == b.0 % 10
    }
}

/// A parent, a name, a version and a bit: a folder for version 0, else a file.
pub type Row = (u64, &'static [u8], u64, bool);

fn node(alloc: Global, (parent, name, ver, bit): Row) -> Result<Node, NameFault> {
    let name = Name::new(alloc, name)?;
    let parent = NodeId(parent);
    Ok(Node {
        place: Place { parent, name },
        kind: if ver == 0 { Kind::Folder } else { Kind::File },
        ver: Ver(ver),
        bit,
    })
}

pub fn value(alloc: Global, row: Option<Row>) -> Result<Option<Node>, NameFault> {
    match row {
        Some(row) => Ok(Some(node(alloc, row)?)),
        None => Ok(None),
    }
}

#[test]
fn targets(rt: HostRuntime) -> Result<(), Fail> {
    let old = (0, b"a".as_slice(), 5, false);
    let local = (2, b"b".as_slice(), 8, true);
    for (r, l, s, want) in [
        // Without Local's node, or Synced's, it is Remote's.
        (
            (0, b"a".as_slice(), 7, true),
            None,
            None,
            (0, b"a".as_slice(), 7, true),
        ),
        ((0, b"a", 7, true), None, Some(old), (0, b"a", 7, true)),
        ((0, b"a", 7, false), Some(local), None, (0, b"a", 7, false)),
        // Remote changed nothing, its parent, its name, its version, its bit.
        (old, Some(local), Some(old), local),
        (
            (3, b"a", 5, false),
            Some(local),
            Some(old),
            (3, b"a", 8, true),
        ),
        (
            (0, b"c", 5, false),
            Some(local),
            Some(old),
            (0, b"c", 8, true),
        ),
        (
            (0, b"a", 7, false),
            Some(local),
            Some(old),
            (2, b"b", 7, true),
        ),
        (
            (0, b"a", 5, true),
            Some((2, b"b", 8, false)),
            Some(old),
            (2, b"b", 8, true),
        ),
    ] {
        let alloc = rt.alloc();
        let (r, l, s) = (node(alloc, r)?, value(alloc, l)?, value(alloc, s)?);
        let found = target(alloc, &r, l.as_ref(), s.as_ref())?;
        assert!(rt; value_eq(Some(&found), Some(&node(alloc, want)?)));
    }
    Ok(())
}

#[test]
fn splits(rt: HostRuntime) -> Result<(), Fail> {
    for (r, l, s, want) in [
        (Some(7), Some(8), Some(5), true),
        (Some(7), Some(8), None, true),
        (Some(7), Some(17), Some(5), false),
        (Some(7), Some(7), None, false),
        (Some(5), Some(8), Some(5), false),
        (Some(7), Some(5), Some(5), false),
        (Some(7), None, Some(5), false),
        (None, Some(7), Some(5), false),
        (Some(0), Some(0), None, false),
    ] {
        let [r, l, s] = [r, l, s].map(|ver| ver.map(|ver| (0, b"a".as_slice(), ver, false)));
        let alloc = rt.alloc();
        let (r, l, s) = (value(alloc, r)?, value(alloc, l)?, value(alloc, s)?);
        assert_eq!(rt;
            needs_split(r.as_ref(), l.as_ref(), s.as_ref(), &LastDigit),
            want
        );
    }
    Ok(())
}
