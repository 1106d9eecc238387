ghost use Rattle.std.specs.Prelude.{◌≡◌, ◌==◌, ◌%◌};

use crate::{Hashes, Kind, Name, NameFault, NameRoom, Node, NodeId, Place, Ver};
use std::test::Fail;

/// Contents that are as their versions' last digits.
struct LastDigit;

impl Hashes for LastDigit {
    ghost same = { λ _ a b. a % 10 == b % 10 };

    fn same(&self, a: Ver, b: Ver) -> bool {
        a.0 % 10 == b.0 % 10
    }
}

fn are_same<H: Hashes>(hashes: &H, a: u64, b: u64) -> bool
    ensures { result ≡ H.same hashes.now a b }
{
    hashes.same(Ver(a), Ver(b))
}

#[test]
fn hashes_are_asked(rt: HostRuntime) -> Result<(), Fail> {
    assert!(rt; are_same(&LastDigit, 12, 2) && !are_same(&LastDigit, 12, 21));
    Ok(())
}

#[test]
fn names_are_judged(rt: HostRuntime) -> Result<(), Fail> {
    let long = [b'a'; 256];
    for (bytes, want) in [
        (b"".as_slice(), Some(NameFault::Empty)),
        (b"a".as_slice(), None),
        (&long[..255], None),
        (&long[..], Some(NameFault::TooLong(256))),
        (b"a\xc3\xa9".as_slice(), None),
        (b"a\xc3".as_slice(), Some(NameFault::BadByte(1))),
        (b"ab\xc3\xa9/\xc3".as_slice(), Some(NameFault::BadByte(4))),
        (b"a\0b".as_slice(), Some(NameFault::BadByte(1))),
        (b"\xa9".as_slice(), Some(NameFault::BadByte(0))),
        (b".".as_slice(), Some(NameFault::Dots)),
        (b"..".as_slice(), Some(NameFault::Dots)),
        (b"...".as_slice(), None),
    ] {
        assert_eq!(rt; Name::new(rt.alloc(), bytes).err(), want);
    }
    Ok(())
}

#[test]
fn copies_are_the_same(rt: HostRuntime) -> Result<(), Fail> {
    let place = Place {
        parent: NodeId(3),
        name: Name::new(rt.alloc(), b"notes.txt")?,
    };
    let node = Node {
        place,
        kind: Kind::File,
        ver: Ver(7),
        bit: true,
    };
    let copy = node.copy(rt.alloc())?;
    let again = node.copy_in(NameRoom::new(rt.alloc())?);
    assert!(rt; again.bit && again.place.name.same(&copy.place.name));
    assert_eq!(rt; copy.place.name.bytes(), b"notes.txt".as_slice());
    assert_eq!(rt;
        (copy.place.parent, copy.ver, copy.bit),
        (NodeId(3), Ver(7), true)
    );
    assert!(rt; copy.place.name.same(&node.place.name));
    assert!(rt; !copy.place.name.same(&Name::new(rt.alloc(), b"Notes.txt")?));
    Ok(())
}
