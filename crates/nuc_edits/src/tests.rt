ghost use Rattle.std.specs.Prelude.{◌≡◌, ◌+◌, ℕ, IfOk, OnOk};
ghost use Rattle.nuc_edits.specs.Edits.{IsNext, WasPut};

use super::*;
use nuc_base::{Counters, Hashes, NodeId, Ver};
use nuc_hash::content_of;
use std::alloc::{AllocError, Global};
use std::test::Fail;

/// Enters an edit of a file that puts these bytes.
fn put(
    alloc: Global,
    edits: &mut Edits,
    ids: &mut Counters,
    base: Ver,
    bytes: &[u8],
) -> Result<Ver, AllocError>
    requires { IsNext ids.old.next_ver edits.old.now.edits }
    ensures version { IfOk result (λ ver. ver.0 ≡ ids.old.next_ver) }
    ensures counters { OnOk result (ids.new.next_ver ≡ ids.old.next_ver + 1) }
    ensures next { IsNext ids.new.next_ver edits.new.now.edits }
    ensures put { IfOk result (λ ver. WasPut edits.new.now.edits ver.0) }
    ensures kept { (v : ℕ) → WasPut edits.old.now.edits v → WasPut edits.new.now.edits v }
{
    let content = content_of(alloc, bytes)?;
    edits.enter(ids, NodeId(5), base, EditKind::Put(content))
}

/// Edits 1 and 2, of which the first puts `x`, and the second puts these bytes in its place.
fn two_puts(alloc: Global, bytes: &[u8]) -> Result<(Edits, Counters), AllocError>
    ensures next { IfOk result (λ r. IsNext r.1.next_ver r.0.now.edits) }
    ensures first { IfOk result (λ r. WasPut r.0.now.edits 1) }
    ensures second { IfOk result (λ r. WasPut r.0.now.edits 2) }
{
    let mut edits = Edits::new(alloc);
    let mut ids = Counters {
        next_id: 7,
        next_ver: 1,
    };
    put(alloc, &mut edits, &mut ids, Ver(0), b"x")?;
    put(alloc, &mut edits, &mut ids, Ver(1), bytes)?;
    Ok((edits, ids))
}

/// The version, identity, base and size that stand at the index, with 9 for a deletion's size and for no edit.
fn row(edits: &Edits, index: u64) -> (u64, u64, u64, u64) {
    match edits.entry(index) {
        Some(edit) => (edit.ver.0, edit.id.0, edit.base.0, size(edit)),
        None => (9, 9, 9, 9),
    }
}

fn size(edit: &Edit) -> u64 {
    match &edit.what {
        EditKind::Put(content) => content.size(),
        EditKind::Deleted => 9,
    }
}

#[test]
fn records_edits_in_order(rt: HostRuntime) -> Result<(), Fail> {
    let (mut edits, mut ids) = two_puts(rt.alloc(), b"hello")?;
    let third = edits.enter(&mut ids, NodeId(5), Ver(2), EditKind::Deleted)?;
    assert!(rt; third.0 == 3 && ids.next_id == 7 && ids.next_ver == 4);
    assert!(rt; row(&edits, 0) == (1, 5, 0, 1) && row(&edits, 1) == (2, 5, 1, 5));
    assert!(rt; row(&edits, 2) == (3, 5, 2, 9) && edits.entry(3).is_none());
    assert!(rt; edits.content(Ver(2)).is_some() && edits.content(Ver(3)).is_none());
    Ok(())
}

#[test]
fn refuses_other_hashes(rt: HostRuntime) -> Result<(), Fail> {
    let (mut edits, _) = two_puts(rt.alloc(), b"y")?;
    let refused = edits.adopt(Ver(1), Ver(2));
    assert!(rt; refused == Err(AdoptFault::HashesDiffer(Ver(1), Ver(2))));
    assert!(rt; edits.adoption_count() == 0 && !edits.adopted(Ver(1)));
    Ok(())
}

#[test]
fn adopts_equal_hashes(rt: HostRuntime) -> Result<(), Fail> {
    let (mut edits, _) = two_puts(rt.alloc(), b"x")?;
    edits.adopt(Ver(2), Ver(1))?;
    assert!(rt; edits.adopted(Ver(2)) && !edits.adopted(Ver(1)));
    assert!(rt; edits.based(Ver(1)) && !edits.based(Ver(2)));
    let first = edits.adoption(0);
    assert!(rt;
        first
            == Some(&Adoption {
                old: Ver(2),
                into: Ver(1)
            })
    );
    assert!(rt; edits.same(Ver(2), Ver(1)) && !edits.same(Ver(2), Ver(3)));
    Ok(())
}

#[test]
fn goes_back_to_what_was_settled(rt: HostRuntime) -> Result<(), Fail> {
    let (mut edits, mut ids) = two_puts(rt.alloc(), b"x")?;
    edits.settle();
    let third = put(rt.alloc(), &mut edits, &mut ids, Ver(2), b"x")?;
    edits.adopt(third, Ver(1))?;
    assert!(rt; edits.based(Ver(2)) && edits.adopted(Ver(3)));
    edits.back();
    assert!(rt; edits.based(Ver(1)) && !edits.based(Ver(2)) && !edits.adopted(Ver(3)));
    assert!(rt; edits.content(Ver(2)).is_some() && edits.content(Ver(3)).is_none());
    assert!(rt; edits.len() == 2 && edits.adoption_count() == 0);
    Ok(())
}
