//! The operation of each wish: what it writes in each tree, and where it is carried out.
use crate::tests::{LastDigit, Row, value};
use crate::{Effect, Op, Verb, Wish, operation, value_eq};
use nuc_base::{Change, NodeId};
use std::alloc::Global;
use std::process::Abort;
use std::test::Fail;

/// Identity 4 wishes this, having these values in Remote, Local and Synced.
type Wished = (Wish, [Option<Row>; 3]);

/// In Remote, Local and Synced: a row that is put, or none that is cut.
type Writes = [Option<Option<Row>>; 3];

const KEEP: Option<Option<Row>> = None;

const CUT: Option<Option<Row>> = Some(None);

fn op_of(alloc: Global, (wish, [r, l, s]): Wished) -> Result<Option<Op>, Fail> {
    let (r, l, s) = (value(alloc, r)?, value(alloc, l)?, value(alloc, s)?);
    let id = NodeId(4);
    Ok(operation(
        alloc,
        wish,
        id,
        r.as_ref(),
        l.as_ref(),
        s.as_ref(),
        &LastDigit,
    )?)
}

fn is_written(alloc: Global, change: &Change, want: Option<Option<Row>>) -> Result<bool, Fail> {
    Ok(match (change, want) {
        (Change::Keep, None) | (Change::Cut, Some(None)) => true,
        (Change::Put(node), Some(Some(row))) => {
            value_eq(Some(node), value(alloc, Some(row))?.as_ref())
        }
        _ => false,
    })
}

fn writes(rt: &impl Abort, alloc: Global, op: &Op, want: Writes) -> Result<(), Fail> {
    let [remote, local, synced] = want;
    assert!(rt; is_written(alloc, &op.remote, remote)?);
    assert!(rt; is_written(alloc, &op.local, local)?);
    assert!(rt; is_written(alloc, &op.synced, synced)?);
    Ok(())
}

#[test]
fn downs(rt: HostRuntime) -> Result<(), Fail> {
    let old = Some((0, b"f".as_slice(), 5, false));
    let new = Some((0, b"f".as_slice(), 7, false));
    let moved = Some((0, b"g".as_slice(), 5, false));
    let bit = Some((0, b"f".as_slice(), 5, true));
    let both = Some((0, b"g".as_slice(), 7, false));
    let alike = Some((0, b"f".as_slice(), 17, false));
    for (values, local, effect) in [
        ([new, None, None], new, Effect::Disk),
        ([new, old, old], new, Effect::Disk),
        ([moved, old, old], moved, Effect::Disk),
        ([bit, old, old], bit, Effect::Disk),
        ([moved, new, old], both, Effect::Disk),
        ([new, alike, old], new, Effect::Nothing),
        ([new, new, None], new, Effect::Nothing),
    ] {
        let op = op_of(rt.alloc(), (Wish::Down, values))?.ok_or("an operation")?;
        assert_eq!(rt; (op.verb, op.effect), (Verb::Down, effect));
        writes(&rt, rt.alloc(), &op, [KEEP, Some(local), Some(values[0])])?;
    }
    Ok(())
}

#[test]
fn ups_and_cuts(rt: HostRuntime) -> Result<(), Fail> {
    let old = Some((0, b"f".as_slice(), 5, false));
    let new = Some((0, b"f".as_slice(), 7, false));
    for (wish, values, verb, want, effect) in [
        (
            Wish::Up,
            [old, new, old],
            Verb::Up,
            [Some(new), KEEP, Some(new)],
            Effect::Commit,
        ),
        (
            Wish::Up,
            [None, new, None],
            Verb::Up,
            [Some(new), KEEP, Some(new)],
            Effect::Commit,
        ),
        (
            Wish::CutDown,
            [None, old, old],
            Verb::CutDown,
            [KEEP, CUT, CUT],
            Effect::Disk,
        ),
        (
            Wish::CutUp,
            [old, None, old],
            Verb::CutUp,
            [CUT, KEEP, CUT],
            Effect::Commit,
        ),
        (
            Wish::Forget,
            [None, None, old],
            Verb::Forget,
            [KEEP, KEEP, CUT],
            Effect::Nothing,
        ),
    ] {
        let op = op_of(rt.alloc(), (wish, values))?.ok_or("an operation")?;
        assert_eq!(rt; (op.verb, op.effect), (verb, effect));
        writes(&rt, rt.alloc(), &op, want)?;
        let [_, l, s] = values;
        assert!(rt; value_eq(op.old_local.as_ref(), value(rt.alloc(), l)?.as_ref()));
        assert!(rt; value_eq(op.old_synced.as_ref(), value(rt.alloc(), s)?.as_ref()));
        assert_eq!(rt;
            (op.number, op.id, op.other, op.base),
            (0, NodeId(4), NodeId(0), 0)
        );
    }
    Ok(())
}

#[test]
fn no_operation(rt: HostRuntime) -> Result<(), Fail> {
    let old = Some((0, b"f".as_slice(), 5, false));
    assert!(rt; op_of(rt.alloc(), (Wish::Split, [old; 3]))?.is_none());
    assert!(rt; op_of(rt.alloc(), (Wish::Nothing, [old; 3]))?.is_none());
    Ok(())
}

#[test]
fn a_new_file_goes_up(rt: HostRuntime) -> Result<(), Fail> {
    let new = Some((0, b"f".as_slice(), 7, true));
    let node = value(rt.alloc(), new)?.ok_or("a node")?;
    let op = Op::new_file(rt.alloc(), NodeId(4), &node)?;
    let up = op_of(rt.alloc(), (Wish::Up, [None, new, None]))?.ok_or("an operation")?;
    assert_eq!(rt; (op.verb, op.effect), (up.verb, up.effect));
    writes(&rt, rt.alloc(), &op, [Some(new), KEEP, Some(new)])
}
