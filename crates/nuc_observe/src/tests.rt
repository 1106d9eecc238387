ghost use Rattle.std.specs.Prelude.{◌<◌};

use super::*;
use nuc_base::NodeId;
use nuc_folder::Key;
use std::alloc::AllocError;
use std::process::Abort;
use std::test::Fail;

/// What is done with the keys.
#[derive(Clone, Copy, Debug)]
enum Step {
    Hand(u64, u64),
    Cut(u64),
    Undo,
    Settle,
    Back,
}

/// Gives an identity above 0 a key above 0, which is taken from whoever else has it.
pub(crate) fn hand(keys: &mut Keys, id: NodeId, key: Key) -> Result<(), AllocError>
    requires id { 0 < id.0 }
    requires key { 0 < key.0 }
{
    match keys.id_of(key) {
        Some(holder) if holder != id => {
            keys.cut(holder)?;
            keys.put(id, key)
        }
        _ => keys.put(id, key),
    }
}

fn take(rt: &impl Abort, keys: &mut Keys, step: Step) -> Result<(), Fail> {
    match step {
        Step::Hand(id, key) => {
            assert!(rt; id > 0 && key > 0);
            hand(keys, NodeId(id), Key(key))?;
        }
        Step::Cut(id) => keys.cut(NodeId(id))?,
        Step::Undo => keys.undo_last(),
        Step::Settle => keys.settle(),
        Step::Back => keys.back(),
    }
    Ok(())
}

/// The identities 1, 2 and 3 have these keys, 0 for none, and nobody has another of the keys 7, 8 and 9.
fn assert_keys(rt: &impl Abort, keys: &Keys, want: [u64; 3], step: Step) {
    for (id, key) in [1, 2, 3].iter().zip(&want) {
        let has = keys.key_of(NodeId(*id));
        if *key == 0 {
            assert_eq!(rt; has, None, "after {step:?}");
        } else {
            assert_eq!(rt; has, Some(Key(*key)), "after {step:?}");
            assert_eq!(rt; keys.id_of(Key(*key)), Some(NodeId(*id)), "after {step:?}");
        }
    }
    for key in [7, 8, 9] {
        let held = want.contains(&key);
        assert_eq!(rt;
            keys.id_of(Key(key)).is_some(),
            held,
            "key {key} after {step:?}"
        );
    }
    let count = want.iter().filter(|key| **key > 0).count();
    assert_eq!(rt; keys.len(), count as u64);
}

#[test]
fn changes_and_goes_back(rt: HostRuntime) -> Result<(), Fail> {
    let mut keys = Keys::new(rt.alloc());
    for (step, want) in [
        (Step::Hand(2, 8), [0, 8, 0]),
        (Step::Hand(1, 9), [9, 8, 0]),
        (Step::Hand(2, 7), [9, 7, 0]),
        (Step::Hand(2, 7), [9, 7, 0]),
        (Step::Undo, [9, 7, 0]),
        (Step::Settle, [9, 7, 0]),
        (Step::Undo, [9, 7, 0]),
        (Step::Cut(2), [9, 0, 0]),
        (Step::Cut(3), [9, 0, 0]),
        (Step::Hand(3, 7), [9, 0, 7]),
        (Step::Cut(1), [0, 0, 7]),
        (Step::Hand(2, 9), [0, 9, 7]),
        (Step::Undo, [0, 0, 7]),
        (Step::Undo, [9, 0, 7]),
        (Step::Hand(3, 8), [9, 0, 8]),
        (Step::Back, [9, 7, 0]),
        (Step::Hand(3, 9), [0, 7, 9]),
        (Step::Undo, [0, 7, 0]),
        (Step::Undo, [9, 7, 0]),
        (Step::Hand(1, 8), [8, 7, 0]),
        (Step::Settle, [8, 7, 0]),
        (Step::Back, [8, 7, 0]),
    ] {
        take(&rt, &mut keys, step)?;
        assert_keys(&rt, &keys, want, step);
    }
    Ok(())
}

#[test]
fn opens_with_bindings(rt: HostRuntime) -> Result<(), Fail> {
    let bindings = [
        Binding {
            id: NodeId(2),
            key: Key(8),
        },
        Binding {
            id: NodeId(1),
            key: Key(9),
        },
    ];
    let mut keys = Keys::of(rt.alloc(), &bindings)?;
    keys_are_one_to_one(&keys);
    assert!(rt; !keys.is_empty());
    assert_keys(&rt, &keys, [9, 8, 0], Step::Settle);
    keys.back();
    assert_keys(&rt, &keys, [9, 8, 0], Step::Back);
    Ok(())
}

/// After `reserve` changes want no memory, nor do they again once they are taken back.
#[test]
fn changes_in_reserved_room(rt: HostRuntime) -> Result<(), Fail> {
    let mut keys = Keys::new(rt.alloc());
    keys.reserve(20)?;
    for _ in 0..2 {
        for n in 1..11 {
            assert!(rt; hand(&mut keys, NodeId(n), Key(50 - n)).is_ok());
        }
        for n in 1..11 {
            assert!(rt; keys.cut(NodeId(n)).is_ok());
        }
        assert_eq!(rt; keys.len(), 0);
        keys.back();
    }
    assert!(rt; keys.reserve(u64::MAX).is_err());
    Ok(())
}
