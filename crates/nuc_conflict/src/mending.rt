ghost use Rattle.std.specs.Prelude.{◌≡◌, IfOk, MatchOption};
ghost use Rattle.std.specs.FinMap as map;
ghost use Rattle.nuc_base.specs.Trees.{IsThere, WellFormed};
ghost use Rattle.nuc_conflict.specs.Mends.{CarriesOut, HasParts, IsAdoption, IsEviction, IsMend, IsMoveBack, IsRevival, IsSplit, local_mend};
ghost use Rattle.nuc_conflict.specs.Remedies.{NoRemedy};

use crate::changes::{copy_of, cut_of, leaving, with_bit};
use crate::free_name;
use crate::remedy::Remedy;
use crate::rules::first_remedy;
use nuc_base::{Change, Hashes, NodeId, Place, TreeLike};
use nuc_class::{Effect, Op, Verb, effect_of};
use std::alloc::{AllocError, Global};

/// The operation that clears the way, where something is wished and nothing can be carried out: the mend of the first of
/// three rules that applies, or none where no rule does. A split takes `next` for its new identity. It asks each
/// identity for its wish.
pub fn mend<T: TreeLike, H: Hashes>(
    alloc: Global,
    r: &T,
    l: &T,
    s: &T,
    h: &H,
    next: NodeId,
) -> Result<Option<Op>, AllocError>
    requires remote { WellFormed (T.nodes r.now) }
    requires local { WellFormed (T.nodes l.now) }
    requires synced { WellFormed (T.nodes s.now) }
    ensures { IfOk result (λ mend. MatchOption mend (NoRemedy (H.same h.now) (T.nodes r.now) (T.nodes l.now) (T.nodes s.now)) (IsMend (H.same h.now) (T.nodes r.now) (T.nodes l.now) (T.nodes s.now) next.0)) }
{
    match first_remedy(alloc, r, l, s, h)? {
        Some(remedy) => Ok(Some(carried_out(alloc, r, l, s, h, next, remedy)?)),
        None => Ok(None),
    }
}

/// The operation of a remedy.
fn carried_out<T: TreeLike, H: Hashes>(
    alloc: Global,
    r: &T,
    l: &T,
    s: &T,
    h: &H,
    next: NodeId,
    remedy: Remedy,
) -> Result<Op, AllocError>
    requires { HasParts (T.nodes r.now) (T.nodes l.now) remedy }
    ensures { IfOk result (CarriesOut (H.same h.now) (T.nodes r.now) (T.nodes l.now) (T.nodes s.now) next.0 remedy) }
{
    match remedy {
        Remedy::Split(id) => split(alloc, r, l, s, next, id),
        Remedy::Evict(id, place) => evict(alloc, r, l, s, h, id, &place),
        Remedy::Adopt(id, other) => adopt(alloc, r, l, s, id, other),
        Remedy::Revive(id) => revive(alloc, r, l, s, id),
        Remedy::Unmove(id) => move_back(alloc, r, l, s, id),
    }
}

fn split<T: TreeLike>(
    alloc: Global,
    r: &T,
    l: &T,
    s: &T,
    next: NodeId,
    id: NodeId,
) -> Result<Op, AllocError>
    requires { IsThere (T.nodes l.now) id.0 }
    ensures { IfOk result (IsSplit (T.nodes r.now) (T.nodes l.now) (T.nodes s.now) next.0 id.0) }
{
    let Some(own) = l.get(id) else { unreachable!() };
    let parent = own.place.parent;
    let name = free_name(alloc, r, l, s, parent, &own.place.name)?;
    let local = Change::Put(own.moved_to(Place { parent, name }));
    let synced = cut_of(s.get(id));
    local_op(
        alloc,
        l,
        s,
        Verb::Split,
        id,
        next,
        local,
        synced,
        Effect::Disk,
    )
}

fn evict<T: TreeLike, H: Hashes>(
    alloc: Global,
    r: &T,
    l: &T,
    s: &T,
    h: &H,
    id: NodeId,
    place: &Place,
) -> Result<Op, AllocError>
    ensures { IfOk result (IsEviction (H.same h.now) (T.nodes r.now) (T.nodes l.now) (T.nodes s.now) id.0 place.now) }
{
    let parent = place.parent;
    let name = free_name(alloc, r, l, s, parent, &place.name)?;
    let free = Place { parent, name };
    let remote = leaving(alloc, r.get(id), place, &free)?;
    let local = leaving(alloc, l.get(id), place, &free)?;
    let synced = leaving(alloc, s.get(id), place, &free)?;
    let effect = effect_of(l.get(id), &local, &remote, h);
    Ok(Op {
        number: 0,
        verb: Verb::Evict,
        id,
        other: NodeId(0),
        remote,
        local,
        synced,
        old_local: copy_of(alloc, l.get(id))?,
        old_synced: copy_of(alloc, s.get(id))?,
        base: 0,
        effect,
    })
}

fn adopt<T: TreeLike>(
    alloc: Global,
    r: &T,
    l: &T,
    s: &T,
    id: NodeId,
    other: NodeId,
) -> Result<Op, AllocError>
    requires remote { IsThere (T.nodes r.now) id.0 }
    requires local { IsThere (T.nodes l.now) other.0 }
    ensures { IfOk result (IsAdoption (T.nodes r.now) (T.nodes l.now) (T.nodes s.now) id.0 other.0) }
{
    let (Some(node), Some(own)) = (r.get(id), l.get(other)) else {
        unreachable!()
    };
    let local = Change::Put(with_bit(node.copy(alloc)?, own.bit));
    local_op(
        alloc,
        l,
        s,
        Verb::Adopt,
        id,
        other,
        local,
        Change::Keep,
        Effect::Nothing,
    )
}

fn revive<T: TreeLike>(alloc: Global, r: &T, l: &T, s: &T, id: NodeId) -> Result<Op, AllocError>
    requires { IsThere (T.nodes r.now) id.0 }
    ensures { IfOk result (IsRevival (T.nodes r.now) (T.nodes l.now) (T.nodes s.now) id.0) }
{
    let Some(node) = r.get(id) else {
        unreachable!()
    };
    let local = Change::Put(node.copy(alloc)?);
    local_op(
        alloc,
        l,
        s,
        Verb::Revive,
        id,
        NodeId(0),
        local,
        Change::Keep,
        Effect::Disk,
    )
}

fn move_back<T: TreeLike>(alloc: Global, r: &T, l: &T, s: &T, id: NodeId) -> Result<Op, AllocError>
    requires remote { IsThere (T.nodes r.now) id.0 }
    requires local { IsThere (T.nodes l.now) id.0 }
    ensures { IfOk result (IsMoveBack (T.nodes r.now) (T.nodes l.now) (T.nodes s.now) id.0) }
{
    let (Some(node), Some(own)) = (r.get(id), l.get(id)) else {
        unreachable!()
    };
    let local = Change::Put(own.moved_to(node.place.copy(alloc)?));
    local_op(
        alloc,
        l,
        s,
        Verb::Unmove,
        id,
        NodeId(0),
        local,
        Change::Keep,
        Effect::Disk,
    )
}

/// An operation that leaves Remote as it is.
fn local_op<T: TreeLike>(
    alloc: Global,
    l: &T,
    s: &T,
    verb: Verb,
    id: NodeId,
    other: NodeId,
    local: Change,
    synced: Change,
    effect: Effect,
) -> Result<Op, AllocError>
    ensures { IfOk result (λ op. op ≡ local_mend verb id.0 other.0 local synced (map.get (T.nodes l.now) id.0) (map.get (T.nodes s.now) id.0) effect) }
{
    Ok(Op {
        number: 0,
        verb,
        id,
        other,
        remote: Change::Keep,
        local,
        synced,
        old_local: copy_of(alloc, l.get(id))?,
        old_synced: copy_of(alloc, s.get(id))?,
        base: 0,
        effect,
    })
}
