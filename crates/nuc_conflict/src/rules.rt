ghost use Rattle.std.specs.Prelude.{◌≡◌, ◌≢◌, None, Some, IfOk, IfSome, MatchBool, MatchOption};
ghost use Rattle.std.specs.FinMap as map;
ghost use Rattle.nuc_base.specs.Legal.{IsFree};
ghost use Rattle.nuc_base.specs.Trees.{IsUnder, WellFormed};
ghost use Rattle.nuc_conflict.specs.Remedies.{CanAdopt, ClearsDown, ClearsUp, IsAlike, IsClearDown, IsClearUp, IsDownClear, IsDownRemedy, IsInTheWay, IsRemedy, IsUnblocking, IsUpClear, IsUpRemedy, MakesRoom, NoRemedy, Unblocks};

use crate::blocker::blocker;
use crate::remedy::Remedy;
use crate::topmost::{least_split, topmost};
use nuc_base::{Hashes, Kind, Node, NodeId, Place, TreeLike};
use nuc_class::Wish;
use std::alloc::{AllocError, Global};

/// What clears the way: the first of three rules that applies. A split that is needed comes first; then what is in the
/// way of the topmost that wishes Down; then what is in the way of the topmost that wishes Up.
pub(crate) fn first_remedy<T: TreeLike, H: Hashes>(
    alloc: Global,
    r: &T,
    l: &T,
    s: &T,
    h: &H,
) -> Result<Option<Remedy>, AllocError>
    requires remote { WellFormed (T.nodes r.now) }
    requires local { WellFormed (T.nodes l.now) }
    requires synced { WellFormed (T.nodes s.now) }
    ensures { IfOk result (λ remedy. MatchOption remedy (NoRemedy (H.same h.now) (T.nodes r.now) (T.nodes l.now) (T.nodes s.now)) (IsRemedy (H.same h.now) (T.nodes r.now) (T.nodes l.now) (T.nodes s.now))) }
{
    if let Some(id) = least_split(r, l, s, h) {
        return Ok(Some(Remedy::Split(id)));
    }
    if let Some(remedy) = down_rule(alloc, r, l, s, h)? {
        return Ok(Some(remedy));
    }
    up_rule(alloc, r, l, s, h)
}

/// What is in the way of the topmost that wishes Down, if anything is.
fn down_rule<T: TreeLike, H: Hashes>(
    alloc: Global,
    r: &T,
    l: &T,
    s: &T,
    h: &H,
) -> Result<Option<Remedy>, AllocError>
    requires remote { WellFormed (T.nodes r.now) }
    requires local { WellFormed (T.nodes l.now) }
    requires synced { WellFormed (T.nodes s.now) }
    ensures { IfOk result (λ remedy. MatchOption remedy (IsDownClear (H.same h.now) (T.nodes r.now) (T.nodes l.now) (T.nodes s.now)) (IsDownRemedy (H.same h.now) (T.nodes r.now) (T.nodes l.now) (T.nodes s.now))) }
{
    let Some(id) = topmost(r, r, l, s, h, Wish::Down) else {
        return Ok(None);
    };
    let Some(node) = r.get(id) else {
        unreachable!()
    };
    clear_down(alloc, r, l, s, h, id, node)
}

/// What is in the way of the topmost that wishes Up, if anything is.
fn up_rule<T: TreeLike, H: Hashes>(
    alloc: Global,
    r: &T,
    l: &T,
    s: &T,
    h: &H,
) -> Result<Option<Remedy>, AllocError>
    requires remote { WellFormed (T.nodes r.now) }
    requires local { WellFormed (T.nodes l.now) }
    requires synced { WellFormed (T.nodes s.now) }
    ensures { IfOk result (λ remedy. MatchOption remedy (IsUpClear (H.same h.now) (T.nodes r.now) (T.nodes l.now) (T.nodes s.now)) (IsUpRemedy (H.same h.now) (T.nodes r.now) (T.nodes l.now) (T.nodes s.now))) }
{
    let Some(id) = topmost(l, r, l, s, h, Wish::Up) else {
        return Ok(None);
    };
    let Some(node) = l.get(id) else {
        unreachable!()
    };
    clear_up(alloc, r, s, id, node)
}

/// What clears the way for an identity to come down to where Remote has it, if anything is in the way.
fn clear_down<T: TreeLike, H: Hashes>(
    alloc: Global,
    r: &T,
    l: &T,
    s: &T,
    h: &H,
    id: NodeId,
    node: &Node,
) -> Result<Option<Remedy>, AllocError>
    requires remote { WellFormed (T.nodes r.now) }
    requires local { WellFormed (T.nodes l.now) }
    requires synced { WellFormed (T.nodes s.now) }
    requires there { map.get (T.nodes r.now) id.0 ≡ Some node.now }
    ensures { IfOk result (λ remedy. MatchOption remedy (IsClearDown (T.nodes l.now) (T.nodes s.now) id.0 node.now) (ClearsDown (H.same h.now) (T.nodes r.now) (T.nodes l.now) (T.nodes s.now) id.0 node.now)) }
{
    if let Some(other) = in_the_way(s, &node.place, id) {
        return Ok(Some(Remedy::Evict(other, node.place.copy(alloc)?)));
    }
    if let Some(other) = in_the_way(l, &node.place, id) {
        return Ok(Some(make_room(alloc, r, l, s, h, id, node, other)?));
    }
    if l.under(node.place.parent, id) {
        return Ok(Some(unblock(alloc, r, l, id, node)?));
    }
    Ok(None)
}

/// What clears the way for an identity to go up to where Local has it, if anything is in the way.
fn clear_up<T: TreeLike>(
    alloc: Global,
    r: &T,
    s: &T,
    id: NodeId,
    node: &Node,
) -> Result<Option<Remedy>, AllocError>
    requires remote { WellFormed (T.nodes r.now) }
    requires synced { WellFormed (T.nodes s.now) }
    ensures { IfOk result (λ remedy. MatchOption remedy (IsClearUp (T.nodes r.now) (T.nodes s.now) id.0 node.now) (ClearsUp (T.nodes r.now) (T.nodes s.now) id.0 node.now)) }
{
    if let Some(other) = in_the_way(r, &node.place, id) {
        return Ok(Some(Remedy::Evict(other, node.place.copy(alloc)?)));
    }
    if let Some(other) = in_the_way(s, &node.place, id) {
        return Ok(Some(Remedy::Evict(other, node.place.copy(alloc)?)));
    }
    Ok(None)
}

/// Who else has this place.
fn in_the_way<T: TreeLike>(tree: &T, place: &Place, id: NodeId) -> Option<NodeId>
    requires { WellFormed (T.nodes tree.now) }
    ensures { MatchOption result (IsFree (T.nodes tree.now) id.0 place.now) (λ y. IsInTheWay (T.nodes tree.now) place.now id.0 y.0) }
{
    another(tree.at(place.parent, &place.name), id)
}

/// Who was found, where it isn't `id`.
fn another(found: Option<NodeId>, id: NodeId) -> Option<NodeId>
    ensures { MatchOption result (IfSome found (λ x. x.0 ≡ id.0)) (λ x. (found ≡ Some x) × (x.0 ≢ id.0)) }
{
    match found {
        Some(other) if other != id => found,
        _ => None,
    }
}

/// What becomes of `other`, which has in Local the place that `id` has in Remote.
fn make_room<T: TreeLike, H: Hashes>(
    alloc: Global,
    r: &T,
    l: &T,
    s: &T,
    h: &H,
    id: NodeId,
    node: &Node,
    other: NodeId,
) -> Result<Remedy, AllocError>
    ensures { IfOk result (MakesRoom (H.same h.now) (T.nodes r.now) (T.nodes l.now) (T.nodes s.now) id.0 node.now other.0) }
{
    if can_adopt(r, l, s, h, id, node, other) {
        return Ok(Remedy::Adopt(id, other));
    }
    Ok(Remedy::Evict(other, node.place.copy(alloc)?))
}

/// Whether the two were made alike, one in Remote alone and the other in Local alone.
fn can_adopt<T: TreeLike, H: Hashes>(
    r: &T,
    l: &T,
    s: &T,
    h: &H,
    id: NodeId,
    node: &Node,
    other: NodeId,
) -> bool
    ensures { MatchBool result (CanAdopt (H.same h.now) (T.nodes r.now) (T.nodes l.now) (T.nodes s.now) id.0 node.now other.0) (¬ (CanAdopt (H.same h.now) (T.nodes r.now) (T.nodes l.now) (T.nodes s.now) id.0 node.now other.0)) }
{
    let Some(own) = l.get(other) else {
        return false;
    };
    is_in_neither(l, s, id)
        && is_in_neither(r, s, other)
        && node.place.name.bytes() == own.place.name.bytes()
        && is_alike(node, own, h)
}

fn is_in_neither<T: TreeLike>(a: &T, b: &T, id: NodeId) -> bool
    ensures { MatchBool result ((map.get (T.nodes a.now) id.0 ≡ None) × (map.get (T.nodes b.now) id.0 ≡ None)) (¬ ((map.get (T.nodes a.now) id.0 ≡ None) × (map.get (T.nodes b.now) id.0 ≡ None))) }
{
    a.get(id).is_none() && b.get(id).is_none()
}

/// Whether both are folders, or both are files of one content.
fn is_alike<H: Hashes>(node: &Node, own: &Node, h: &H) -> bool
    ensures { MatchBool result (IsAlike (H.same h.now) node.now.kind node.now.ver.0 own.now.kind own.now.ver.0) (¬ (IsAlike (H.same h.now) node.now.kind node.now.ver.0 own.now.kind own.now.ver.0)) }
{
    match (node.kind, own.kind) {
        (Kind::Folder, Kind::Folder) => true,
        (Kind::File, Kind::File) => own.ver == node.ver || h.same(own.ver, node.ver),
        (Kind::Folder, Kind::File) | (Kind::File, Kind::Folder) => false,
    }
}

/// What brings a folder above `id` to where Remote has it, since `id` is above its own new place in Local.
fn unblock<T: TreeLike>(
    alloc: Global,
    r: &T,
    l: &T,
    id: NodeId,
    node: &Node,
) -> Result<Remedy, AllocError>
    requires remote { WellFormed (T.nodes r.now) }
    requires local { WellFormed (T.nodes l.now) }
    requires there { map.get (T.nodes r.now) id.0 ≡ Some node.now }
    requires below { IsUnder (T.nodes l.now) node.now.place.parent.0 id.0 }
    ensures { IfOk result (IsUnblocking (T.nodes r.now) (T.nodes l.now) node.now.place.parent.0) }
{
    let Some(top) = blocker(r, l, node.place.parent) else {
        unreachable!()
    };
    let Some(there) = r.get(top) else {
        unreachable!()
    };
    come_back(alloc, l, top, there)
}

/// How an identity comes to Remote's place in Local: it comes back, or moves there, once nobody else has the place.
fn come_back<T: TreeLike>(
    alloc: Global,
    l: &T,
    id: NodeId,
    node: &Node,
) -> Result<Remedy, AllocError>
    requires { WellFormed (T.nodes l.now) }
    ensures { IfOk result (Unblocks (T.nodes l.now) id.0 node.now) }
{
    if let Some(other) = in_the_way(l, &node.place, id) {
        return Ok(Remedy::Evict(other, node.place.copy(alloc)?));
    }
    match l.get(id) {
        Some(_) => Ok(Remedy::Unmove(id)),
        None => Ok(Remedy::Revive(id)),
    }
}
