use super::*;
use nuc_base::{Counters, Kind, Name, NodeId, Path, TreeLike, Ver};
use nuc_blocks::Store;
use nuc_edits::{Edit, EditKind, Edits};
use nuc_hash::Filling;
use sqlite_items::Items;
use std::alloc::Global;
use std::test::Fail;

fn path(alloc: Global, names: &[&str]) -> Result<Path, Fail> {
    let mut path = Items::new(alloc);
    for name in names {
        path.push(Name::new(alloc, name.as_bytes())?)?;
    }
    Ok(Path { names: path })
}

fn write(alloc: Global, names: &[&str], text: &str) -> Result<WebEdit, Fail> {
    let bytes = Items::from_slice(alloc, text.as_bytes())?;
    Ok(WebEdit::Write(path(alloc, names)?, Filling::Given(bytes)))
}

/// The version of an edit, the one that it replaces, and whether it put something.
fn shown(edit: &Edit) -> (u64, u64, bool) {
    let put = match &edit.what {
        EditKind::Put(_) => true,
        EditKind::Deleted => false,
    };
    (edit.ver.0, edit.base.0, put)
}

#[test]
fn answers_web_edits(rt: HostRuntime) -> Result<(), Fail> {
    let alloc = rt.alloc();
    let mut server = LoopServer::new(alloc);
    let mut store = Store::new(alloc);
    let mut edits = Edits::new(alloc);
    let mut ids = Counters {
        next_id: 1,
        next_ver: 1,
    };
    let folder = path(alloc, &["d"])?;
    let below = path(alloc, &["d", "e"])?;
    let rows = [
        (write(alloc, &["f"], "x")?, WebReply::Accepted(1)),
        (write(alloc, &["f"], "x")?, WebReply::Same),
        (write(alloc, &["f"], "y")?, WebReply::Accepted(2)),
        (
            WebEdit::Mkdir(path(alloc, &["f", "g"])?),
            WebReply::NoParent,
        ),
        (WebEdit::Mkdir(path(alloc, &["d"])?), WebReply::Accepted(3)),
        (WebEdit::Move(folder, below), WebReply::Cycle),
        (WebEdit::Remove(path(alloc, &["d"])?), WebReply::Accepted(4)),
    ];
    for (edit, reply) in &rows {
        let edit = edit.copy(alloc)?;
        let answer = server.web(alloc, &edit, &mut store, &mut edits, &mut ids);
        assert_eq!(rt; answer, *reply);
    }
    assert_eq!(rt; server.journal().last(), 4);
    assert_eq!(rt; (ids.next_id, ids.next_ver), (3, 3));
    assert_eq!(rt; store.len(), 2);
    match server.tree().get(NodeId(1)) {
        Some(file) => {
            assert_eq!(rt; (file.kind, file.ver), (Kind::File, Ver(2)));
            assert_eq!(rt; file.place.name.bytes(), b"f".as_slice());
        }
        None => assert!(rt; false),
    }
    assert_eq!(rt; edits.len(), 2);
    assert_eq!(rt; edits.entry(0).map(|edit| shown(edit)), Some((1, 0, true)));
    assert_eq!(rt; edits.entry(1).map(|edit| shown(edit)), Some((2, 1, true)));
    Ok(())
}
