ghost use Rattle.std.specs.Prelude.{IsTrue, IfOk, Some};
ghost use Rattle.nuc_server.specs.Judge.{FitsValue, IsLiveBase};

use crate::{Commit, CommitReply, LoopServer, Refusal};
use nuc_base::{Kind, Name, NameFault, Node, NodeId, Place, TreeLike, Ver};
use nuc_blocks::Store;
use nuc_hash::{Content, Digest, content_of};
use std::alloc::{AllocError, Global};
use std::process::Abort;
use std::test::Fail;

/// Of `hello`, by sha256sum.
const OF_HELLO: Digest = Digest([
    0x2c, 0xf2, 0x4d, 0xba, 0x5f, 0xb0, 0xa3, 0x0e, 0x26, 0xe8, 0x3b, 0x2a, 0xc5, 0xb9, 0xe2, 0x9e,
    0x1b, 0x16, 0x1e, 0x5c, 0x1f, 0xa7, 0x42, 0x5e, 0x73, 0x04, 0x33, 0x62, 0x93, 0x8b, 0x98, 0x24,
]);

/// A parent, a name and a version: a folder for version 0, else a file.
type Shape = (u64, &'static [u8], u64);

fn value(alloc: Global, shape: Option<Shape>) -> Result<Option<Node>, NameFault>
    ensures { IfOk result FitsValue }
{
    match shape {
        Some((parent, name, ver)) => Ok(Some(node(alloc, parent, name, ver)?)),
        None => Ok(None),
    }
}

fn node(alloc: Global, parent: u64, name: &[u8], ver: u64) -> Result<Node, NameFault>
    ensures { IfOk result (λ n. FitsValue (Some n)) }
{
    let name = Name::new(alloc, name)?;
    let kind = if ver == 0 { Kind::Folder } else { Kind::File };
    Ok(Node {
        place: Place {
            parent: NodeId(parent),
            name,
        },
        kind,
        ver: Ver(ver),
        bit: false,
    })
}

fn is_live(value: &Option<Node>, base: u64) -> bool
    ensures { IsTrue result → IsLiveBase value.now base }
{
    value.is_some() || base > 0
}

/// Commits by client 1. That memory is wanted is an error here.
fn offer(
    rt: &impl Abort,
    alloc: Global,
    server: &mut LoopServer,
    (id, base, shape): (u64, u64, Option<Shape>),
    content: Option<&Content>,
) -> Result<CommitReply, Fail> {
    let value = value(alloc, shape)?;
    assert!(rt; id > 0 && is_live(&value, base));
    let commit = Commit {
        id: NodeId(id),
        base,
        value,
    };
    let reply = server.commit(alloc, &commit, content, &Store::new(alloc), 1);
    if reply == CommitReply::Memory {
        return Err(AllocError.into());
    }
    Ok(reply)
}

/// `f` is written twice, then `d` comes and goes.
fn four_commits(rt: &impl Abort, alloc: Global, server: &mut LoopServer) -> Result<(), Fail> {
    for (rev, offered) in [
        (1, (1, 0, Some((0, b"f".as_slice(), 1)))),
        (2, (1, 1, Some((0, b"f".as_slice(), 2)))),
        (3, (2, 0, Some((0, b"d".as_slice(), 0)))),
        (4, (2, 3, None)),
    ] {
        let reply = offer(rt, alloc, server, offered, None)?;
        assert_eq!(rt; reply, CommitReply::Accepted(rev));
    }
    Ok(())
}

/// All is as after these four commits.
fn stands(rt: &impl Abort, server: &LoopServer) {
    assert_eq!(rt; server.journal().last(), 4);
    assert_eq!(rt; server.journal().rev_of(NodeId(1)), 2);
    assert_eq!(rt; server.tree().len(), 1);
    assert_eq!(rt;
        server.tree().get(NodeId(1)).map(|node| node.ver.0),
        Some(2)
    );
}

#[test]
fn refuses_with_the_first_reason(rt: HostRuntime) -> Result<(), Fail> {
    let mut server = LoopServer::new(rt.alloc());
    four_commits(&rt, rt.alloc(), &mut server)?;
    let hello = content_of(rt.alloc(), b"hello")?;
    for (offered, want) in [
        ((1, 1, Some((0, b"f".as_slice(), 3))), Refusal::Stale(2)),
        ((2, 0, Some((0, b"d".as_slice(), 3))), Refusal::KindChanged),
        ((3, 0, Some((9, b"g".as_slice(), 0))), Refusal::NoParent),
        (
            (3, 0, Some((0, b"f".as_slice(), 0))),
            Refusal::Taken(NodeId(1)),
        ),
        (
            (3, 0, Some((0, b"h".as_slice(), 3))),
            Refusal::NoBlock(OF_HELLO),
        ),
    ] {
        let reply = offer(&rt, rt.alloc(), &mut server, offered, Some(&hello))?;
        assert_eq!(&rt; reply, CommitReply::Refused(want));
        stands(&rt, &server);
    }
    Ok(())
}

#[test]
fn goes_back_to_what_was_settled(rt: HostRuntime) -> Result<(), Fail> {
    let mut server = LoopServer::new(rt.alloc());
    four_commits(&rt, rt.alloc(), &mut server)?;
    server.settle();
    let folder = (3, 0, Some((0, b"g".as_slice(), 0)));
    for (rev, offered) in [(5, folder), (6, (1, 2, None))] {
        let reply = offer(&rt, rt.alloc(), &mut server, offered, None)?;
        assert_eq!(&rt; reply, CommitReply::Accepted(rev));
    }
    assert!(&rt; server.tree().get(NodeId(1)).is_none());
    server.back();
    stands(&rt, &server);
    server.reserve(rt.alloc())?;
    let reply = offer(&rt, rt.alloc(), &mut server, folder, None)?;
    assert_eq!(&rt; reply, CommitReply::Accepted(5));
    Ok(())
}
