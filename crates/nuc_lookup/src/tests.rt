use super::*;
use std::alloc::AllocError;
use std::process::Abort;
use std::test::Fail;

/// What is done with the look-up.
#[derive(Clone, Copy, Debug)]
enum Step {
    Put(u64, u64),
    Cut(u64),
    Undo,
    Settle,
    Back,
}

fn take(lookup: &mut UndoLookup, step: Step) -> Result<(), AllocError> {
    match step {
        Step::Put(from, to) => lookup.put(from, to)?,
        Step::Cut(from) => lookup.cut(from)?,
        Step::Undo => {
            lookup.undo_last();
        }
        Step::Settle => lookup.settle(),
        Step::Back => lookup.back(),
    }
    Ok(())
}

/// The numbers 1, 2 and 3 lead to these, 0 for nowhere.
fn assert_leads(rt: &impl Abort, lookup: &UndoLookup, want: [u64; 3], step: Step) {
    for (from, to) in [1, 2, 3].iter().zip(&want) {
        let leads = lookup.get(*from);
        if *to == 0 {
            assert_eq!(rt; leads, None, "from {from} after {step:?}");
        } else {
            assert_eq!(rt; leads, Some(*to), "from {from} after {step:?}");
        }
    }
    let count = want.iter().filter(|to| **to > 0).count();
    assert_eq!(rt; lookup.len(), count as u64);
    assert_eq!(rt; lookup.is_empty(), count == 0);
}

#[test]
fn changes_and_goes_back(rt: HostRuntime) -> Result<(), Fail> {
    let mut lookup = UndoLookup::new(rt.alloc());
    for (step, want) in [
        (Step::Put(2, 8), [0, 8, 0]),
        (Step::Put(1, 8), [8, 8, 0]),
        (Step::Put(2, 7), [8, 7, 0]),
        (Step::Undo, [8, 8, 0]),
        (Step::Settle, [8, 8, 0]),
        (Step::Undo, [8, 8, 0]),
        (Step::Cut(2), [8, 0, 0]),
        (Step::Cut(3), [8, 0, 0]),
        (Step::Put(3, 7), [8, 0, 7]),
        (Step::Cut(1), [0, 0, 7]),
        (Step::Cut(3), [0, 0, 0]),
        (Step::Undo, [0, 0, 7]),
        (Step::Undo, [8, 0, 7]),
        (Step::Put(3, 9), [8, 0, 9]),
        (Step::Back, [8, 8, 0]),
        (Step::Put(3, 9), [8, 8, 9]),
        (Step::Settle, [8, 8, 9]),
        (Step::Back, [8, 8, 9]),
    ] {
        take(&mut lookup, step)?;
        assert_leads(&rt, &lookup, want, step);
    }
    Ok(())
}

#[test]
fn opens_with_rows(rt: HostRuntime) -> Result<(), Fail> {
    let rows = vec![in rt.alloc(); Row { from: 3, to: 9 }, Row { from: 1, to: 8 }]?;
    let mut lookup = UndoLookup::of(rt.alloc(), rows);
    assert_leads(&rt, &lookup, [8, 0, 9], Step::Settle);
    lookup.cut(1)?;
    lookup.back();
    assert_leads(&rt, &lookup, [8, 0, 9], Step::Back);
    Ok(())
}

/// After `reserve` changes want no memory, nor do they again once they are taken back.
#[test]
fn changes_in_reserved_room(rt: HostRuntime) -> Result<(), Fail> {
    let mut lookup = UndoLookup::new(rt.alloc());
    lookup.reserve(20)?;
    for _ in 0..2 {
        for n in 0..10 {
            assert!(rt; lookup.put(n, 50 - n).is_ok());
        }
        for n in 0..10 {
            assert!(rt; lookup.cut(n).is_ok());
        }
        assert!(rt; lookup.is_empty());
        lookup.back();
    }
    assert!(rt; lookup.reserve(u64::MAX).is_err());
    Ok(())
}

#[test]
fn says_what_was_undone(rt: HostRuntime) -> Result<(), Fail> {
    let mut lookup = UndoLookup::new(rt.alloc());
    lookup.put(1, 8)?;
    lookup.settle();
    lookup.set(1, Some(9))?;
    lookup.cut(1)?;
    assert_eq!(rt; lookup.settled_len(), 1);
    assert_eq!(rt; lookup.changes(), 2);
    let cut = Undone {
        from: 1,
        after: None,
        before: Some(9),
    };
    assert_eq!(rt; lookup.undo_last(), Some(cut));
    let put = Undone {
        from: 1,
        after: Some(9),
        before: Some(8),
    };
    assert_eq!(rt; lookup.undo_last(), Some(put));
    assert_eq!(rt; lookup.undo_last(), None);
    assert_eq!(rt; lookup.get(1), Some(8));
    Ok(())
}

fn put_in_room(rt: &impl Abort, lookup: &mut Lookup, from: u64, to: u64) -> Option<u64> {
    assert!(rt; lookup.len() < lookup.room());
    lookup.put(from, to)
}

/// Without undo each change says where the number led before.
#[test]
fn says_what_was_before(rt: HostRuntime) -> Result<(), Fail> {
    let mut lookup = Lookup::new(rt.alloc());
    lookup.grow(3)?;
    assert_eq!(rt; put_in_room(&rt, &mut lookup, 5, 6), None);
    assert_eq!(rt; put_in_room(&rt, &mut lookup, 5, 7), Some(6));
    assert_eq!(rt; put_in_room(&rt, &mut lookup, 4, 1), None);
    assert_eq!(rt; lookup.len(), 2);
    assert_eq!(rt; lookup.get(5), Some(7));
    assert_eq!(rt; lookup.cut(4), Some(1));
    assert_eq!(rt; lookup.cut(4), None);
    lookup.cut_any(Some(5));
    lookup.cut_any(None);
    assert_eq!(rt; lookup.len(), 0);
    Ok(())
}
