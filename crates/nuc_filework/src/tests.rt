use crate::recorder::Recorder;
use crate::run_op;
use nuc_base::{Change, Kind, Name, Node, NodeId, Place, Ver};
use nuc_class::{Effect, Op, Verb};
use nuc_folder::{Key, Outcome, RanOp};
use nuc_hash::content_of;
use nuc_observe::{Binding, Keys};
use std::alloc::Global;
use std::process::Abort;
use std::test::Fail;

fn node(alloc: Global, name: &str, kind: Kind, bit: bool) -> Result<Node, Fail> {
    let name = Name::new(alloc, name.as_bytes())?;
    let parent = NodeId(0);
    Ok(Node {
        place: Place { parent, name },
        kind,
        ver: Ver(1),
        bit,
    })
}

fn op(verb: Verb, id: u64, old_local: Option<Node>, local: Change) -> Op {
    Op {
        number: 1,
        verb,
        id: NodeId(id),
        other: NodeId(0),
        remote: Change::Keep,
        local,
        synced: Change::Keep,
        old_local,
        old_synced: None,
        base: 0,
        effect: Effect::Disk,
    }
}

/// Runs the operation where identity 1 has the key 7, and another content is wanted than was seen. The folder's calls, by
/// their letters, and the answer are these.
fn assert_run<R: AllocGlobal + Abort>(
    rt: &R,
    op: &Op,
    bytes: Option<&[u8]>,
    mut folder: Recorder,
    calls: &str,
    outcome: Outcome,
    made: u32,
) -> Result<(), Fail> {
    let alloc = rt.alloc();
    let binding = Binding {
        id: NodeId(1),
        key: Key(7),
    };
    let keys = Keys::of(alloc, &[binding])?;
    let seen = content_of(alloc, b"one")?;
    let wanted = content_of(alloc, b"two")?;
    let ran = run_op(alloc, op, bytes, &keys, &mut folder, &seen, &wanted);
    assert_eq!(rt; folder.calls.as_str(), calls);
    assert_eq!(rt; ran, RanOp { outcome, made });
    Ok(())
}

#[test]
fn alters_in_order(rt: HostRuntime) -> Result<(), Fail> {
    let alloc = rt.alloc();
    let old = node(alloc, "a", Kind::File, false)?;
    let new = node(alloc, "b", Kind::File, true)?;
    let down = op(Verb::Down, 1, Some(old), Change::Put(new));
    for (failing, calls, outcome, made) in [
        (9, "rsm", Outcome::Ok, 3),
        (3, "rsm", Outcome::Failed, 2),
        (2, "rs", Outcome::Failed, 1),
        (1, "r", Outcome::Failed, 0),
    ] {
        let folder = Recorder::new(alloc, failing, 8);
        assert_run(&rt, &down, Some(b"two"), folder, calls, outcome, made)?;
    }
    Ok(())
}

#[test]
fn makes_with_new_keys(rt: HostRuntime) -> Result<(), Fail> {
    let alloc = rt.alloc();
    let file = node(alloc, "a", Kind::File, false)?;
    let down = op(Verb::Down, 2, None, Change::Put(file));
    for (next, outcome) in [(8, Outcome::Made(Key(8))), (7, Outcome::Changed)] {
        let folder = Recorder::new(alloc, 9, next);
        assert_run(&rt, &down, Some(b"two"), folder, "w", outcome, 1)?;
    }
    assert_run(
        &rt,
        &down,
        None,
        Recorder::new(alloc, 9, 8),
        "",
        Outcome::Changed,
        0,
    )
}

#[test]
fn makes_a_folder(rt: HostRuntime) -> Result<(), Fail> {
    let alloc = rt.alloc();
    let folder = node(alloc, "a", Kind::Folder, false)?;
    let down = op(Verb::Revive, 2, None, Change::Put(folder));
    assert_run(
        &rt,
        &down,
        None,
        Recorder::new(alloc, 9, 8),
        "d",
        Outcome::Made(Key(8)),
        1,
    )
}

#[test]
fn removes_what_has_a_key(rt: HostRuntime) -> Result<(), Fail> {
    let alloc = rt.alloc();
    for (id, calls, outcome, made) in [(1, "x", Outcome::Ok, 1), (2, "", Outcome::Changed, 0)] {
        let old = node(alloc, "a", Kind::File, false)?;
        let cut = op(Verb::CutDown, id, Some(old), Change::Cut);
        assert_run(
            &rt,
            &cut,
            None,
            Recorder::new(alloc, 9, 8),
            calls,
            outcome,
            made,
        )?;
    }
    Ok(())
}

#[test]
fn splits_and_adopts(rt: HostRuntime) -> Result<(), Fail> {
    let alloc = rt.alloc();
    for (verb, calls, made) in [(Verb::Split, "m", 1), (Verb::Adopt, "", 0)] {
        let old = node(alloc, "a", Kind::File, false)?;
        let copy = node(alloc, "a (conflicted copy)", Kind::File, false)?;
        let mend = op(verb, 1, Some(old), Change::Put(copy));
        assert_run(
            &rt,
            &mend,
            None,
            Recorder::new(alloc, 9, 8),
            calls,
            Outcome::Ok,
            made,
        )?;
    }
    Ok(())
}
