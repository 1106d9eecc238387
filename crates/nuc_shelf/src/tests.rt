ghost use Rattle.std.specs.Prelude.{◌≡◌, ◌<◌, IfOk};
ghost use Rattle.nuc_base.specs.declared.node.Kind.TheVariants.{Folder, File};

use crate::Shelf;
use nuc_base::{Kind, Name, NameFault, Node, NodeId, Place, TreeLike, Ver};
use nuc_hash::hash_text;
use std::alloc::Global;
use std::process::Abort;
use std::test::Fail;

/// Of `one` and of `two two`, as Python's hashlib has it: the SHA-256 of the SHA-256.
const HASH_OF_ONE: &str = "fe8d7a873dc48961a6af334c996b2cb3ce37149d5ce9c9253952a54c6a92c1ad";

const HASH_OF_TWO: &str = "f5edbe48fe92b20db2c743f5fca8cd7d18a5beb82d26c176190d35e3449ad1ca";

/// Parent, name, bit, and of a file bytes and hash.
type Shape<'a> = (u64, &'a [u8], bool, Option<(&'a [u8], &'a str)>);

/// `/a` is 1, a folder, and `/a/b` is 2, a file.
const SETTLED: [(u64, Shape<'static>); 2] = [
    (1, (0, b"a", false, None)),
    (2, (1, b"b", false, Some((b"one", HASH_OF_ONE)))),
];

fn place(alloc: Global, parent: u64, name: &[u8]) -> Result<Place, NameFault> {
    let name = Name::new(alloc, name)?;
    Ok(Place {
        parent: NodeId(parent),
        name,
    })
}

fn add_folder<R: AllocGlobal + Abort>(
    rt: &R,
    shelf: &mut Shelf,
    key: u64,
    place: Place,
) -> Result<(), Fail> {
    let node = Node {
        place,
        kind: Kind::Folder,
        ver: Ver(0),
        bit: false,
    };
    assert!(rt; key > 0);
    assert_eq!(rt; shelf.tree().check_put(NodeId(key), &node), Ok(()));
    shelf.add_folder(key, node.place)?;
    Ok(())
}

fn add_file<R: AllocGlobal + Abort>(
    rt: &R,
    shelf: &mut Shelf,
    key: u64,
    place: Place,
    bytes: &[u8],
) -> Result<(), Fail> {
    let node = Node {
        place,
        kind: Kind::File,
        ver: Ver(1),
        bit: false,
    };
    assert!(rt; key > 0);
    assert_eq!(rt; shelf.tree().check_put(NodeId(key), &node), Ok(()));
    shelf.add_file(rt.alloc(), key, node.place, bytes, false)?;
    Ok(())
}

/// Moves what has this key.
fn move_to<R: AllocGlobal + Abort>(
    rt: &R,
    shelf: &mut Shelf,
    key: u64,
    place: Place,
) -> Result<(), Fail> {
    let id = NodeId(key);
    let Some(node) = shelf.tree().get(id) else {
        panic!(rt; "nothing has this key")
    };
    let node = node.moved_to(place);
    assert!(rt; key > 0);
    assert_eq!(rt; shelf.tree().check_put(id, &node), Ok(()));
    shelf.move_to(key, node.place)?;
    Ok(())
}

/// Gives the file of this key other bytes and the bit.
fn rewrite<R: AllocGlobal + Abort>(
    rt: &R,
    shelf: &mut Shelf,
    key: u64,
    bytes: &[u8],
) -> Result<(), Fail> {
    assert!(rt; shelf.file(key).is_some());
    let _tree = shelf.tree();
    shelf.refill(rt.alloc(), key, bytes)?;
    assert!(rt; shelf.file(key).is_some());
    let _tree = shelf.tree();
    shelf.set_bit(rt.alloc(), key, true)?;
    Ok(())
}

fn cut<R: AllocGlobal + Abort>(rt: &R, shelf: &mut Shelf, key: u64) -> Result<(), Fail> {
    let id = NodeId(key);
    assert!(rt; shelf.tree().get(id).is_some() && !shelf.tree().has_child(id));
    shelf.cut(key)?;
    Ok(())
}

fn settled<R: AllocGlobal + Abort>(rt: &R) -> Result<Shelf, Fail> {
    let alloc = rt.alloc();
    let mut shelf = Shelf::new(alloc);
    add_folder(rt, &mut shelf, 1, place(alloc, 0, b"a")?)?;
    add_file(rt, &mut shelf, 2, place(alloc, 1, b"b")?, b"one")?;
    shelf.settle();
    Ok(shelf)
}

/// The shelf has these, and no others.
fn stands<R: AllocGlobal + Abort>(
    rt: &R,
    shelf: &Shelf,
    want: &[(u64, Shape<'static>)],
) -> Result<(), Fail> {
    assert_eq!(rt; shelf.tree().len(), want.len() as u64);
    for &(key, shape) in want {
        stands_at(rt, shelf, key, shape)?;
    }
    Ok(())
}

fn stands_at<R: AllocGlobal + Abort>(
    rt: &R,
    shelf: &Shelf,
    key: u64,
    shape: Shape<'static>,
) -> Result<(), Fail> {
    let (parent, name, bit, filled) = shape;
    let Some(node) = shelf.tree().get(NodeId(key)) else {
        panic!(rt; "nothing has this key")
    };
    assert_eq!(rt; node.place.parent, NodeId(parent));
    assert_eq!(rt; node.place.name.bytes(), name);
    assert_eq!(rt; node.bit, bit);
    match (shelf.file(key), filled) {
        (Some(file), Some((bytes, hash))) => {
            assert_eq!(rt; file.bytes(), bytes);
            assert_eq!(rt; file.content().size(), bytes.len() as u64);
            assert_eq!(rt;
                hash_text(rt.alloc(), file.content().hash())?.as_str(),
                hash
            );
        }
        (None, None) => {}
        _ => panic!(rt; "a file where none is to be, or none where one is to be"),
    }
    Ok(())
}

/// A file is rewritten and moved, and others come and go.
fn changes<R: AllocGlobal + Abort>(rt: &R, shelf: &mut Shelf) -> Result<(), Fail> {
    let alloc = rt.alloc();
    rewrite(rt, shelf, 2, b"two two")?;
    move_to(rt, shelf, 2, place(alloc, 0, b"c")?)?;
    cut(rt, shelf, 1)?;
    add_folder(rt, shelf, 3, place(alloc, 0, b"a")?)?;
    add_file(rt, shelf, 4, place(alloc, 3, b"b")?, b"one")?;
    Ok(())
}

#[test]
fn goes_back_to_what_was_settled(rt: HostRuntime) -> Result<(), Fail> {
    let mut shelf = settled(&rt)?;
    stands(&rt, &shelf, &SETTLED)?;
    changes(&rt, &mut shelf)?;
    let changed = [
        (
            2,
            (
                0,
                b"c".as_slice(),
                true,
                Some((b"two two".as_slice(), HASH_OF_TWO)),
            ),
        ),
        (3, (0, b"a".as_slice(), false, None)),
        (
            4,
            (
                3,
                b"b".as_slice(),
                false,
                Some((b"one".as_slice(), HASH_OF_ONE)),
            ),
        ),
    ];
    stands(&rt, &shelf, &changed)?;
    shelf.back();
    stands(&rt, &shelf, &SETTLED)?;
    changes(&rt, &mut shelf)?;
    shelf.settle();
    shelf.back();
    stands(&rt, &shelf, &changed)
}

/// A file that was cut has its bytes again.
#[test]
fn a_cut_goes_back(rt: HostRuntime) -> Result<(), Fail> {
    let mut shelf = settled(&rt)?;
    cut(&rt, &mut shelf, 2)?;
    assert!(&rt; shelf.file(2).is_none());
    cut(&rt, &mut shelf, 1)?;
    stands(&rt, &shelf, &[])?;
    shelf.back();
    stands(&rt, &shelf, &SETTLED)
}
