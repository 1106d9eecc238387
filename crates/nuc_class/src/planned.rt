ghost use Rattle.std.specs.Prelude.{◌≡◌, IfOk, Some, None};
ghost use Rattle.std.specs.Option.{option_copied};
ghost use Rattle.nuc_class.specs.Op as op;

use crate::op::copy_of;
use crate::{Op, Verb, Wish, effect_of, target};
use nuc_base::{Change, Hashes, Node, NodeId};
use std::alloc::{AllocError, Global};

/// The operation of a wish, by the values of `id` in Remote, Local and Synced. A split has none, since a mend carries it
/// out, and `Nothing` has none.
pub fn operation<H: Hashes>(
    alloc: Global,
    wish: Wish,
    id: NodeId,
    r: Option<&Node>,
    l: Option<&Node>,
    s: Option<&Node>,
    h: &H,
) -> Result<Option<Op>, AllocError>
    ensures { IfOk result (λ o. o ≡ op.operation (H.same h.now) wish id.0 (option_copied r.entry) (option_copied l.entry) (option_copied s.entry)) }
{
    let (verb, changes) = match (wish, r, l) {
        (Wish::Down, Some(r), _) => (Verb::Down, Changes::down(alloc, r, l, s)?),
        (Wish::Up, _, Some(l)) => (Verb::Up, Changes::up(alloc, l)?),
        (Wish::CutDown, _, _) => (Verb::CutDown, Changes::cuts(Change::Keep, Change::Cut)),
        (Wish::CutUp, _, _) => (Verb::CutUp, Changes::cuts(Change::Cut, Change::Keep)),
        (Wish::Forget, _, _) => (Verb::Forget, Changes::cuts(Change::Keep, Change::Keep)),
        _ => return Ok(None),
    };
    Ok(Some(planned(alloc, verb, id, changes, l, s, h)?))
}

/// What an operation does in each tree.
#[derive(Drop)]
struct Changes {
    remote: Change,
    local: Change,
    synced: Change,
}

impl Changes {
    ghost use Rattle.nuc_class.specs.Merge as merge;

    fn down(
        alloc: Global,
        r: &Node,
        l: Option<&Node>,
        s: Option<&Node>,
    ) -> Result<Changes, AllocError>
        ensures { IfOk result (λ c. c ≡ record { remote = Change.Keep; local = Change.Put (merge.target r.now (option_copied l.entry) (option_copied s.entry)); synced = Change.Put r.now }) }
    {
        Ok(Changes {
            remote: Change::Keep,
            local: Change::Put(target(alloc, r, l, s)?),
            synced: Change::Put(r.copy(alloc)?),
        })
    }

    fn up(alloc: Global, l: &Node) -> Result<Changes, AllocError>
        ensures { IfOk result (λ c. c ≡ record { remote = Change.Put l.now; local = Change.Keep; synced = Change.Put l.now }) }
    {
        Ok(Changes {
            remote: Change::Put(l.copy(alloc)?),
            local: Change::Keep,
            synced: Change::Put(l.copy(alloc)?),
        })
    }

    /// What is cut, is cut in Synced too.
    fn cuts(remote: Change, local: Change) -> Changes
        ensures { result ≡ record { remote = remote; local = local; synced = Change.Cut } }
    {
        Changes {
            remote,
            local,
            synced: Change::Cut,
        }
    }
}

/// The operation with these changes, not numbered yet.
fn planned<H: Hashes>(
    alloc: Global,
    verb: Verb,
    id: NodeId,
    changes: Changes,
    l: Option<&Node>,
    s: Option<&Node>,
    h: &H,
) -> Result<Op, AllocError>
    ensures { IfOk result (λ o. o ≡ op.planned (H.same h.now) verb id.0 changes.remote changes.local changes.synced (option_copied l.entry) (option_copied s.entry)) }
{
    let Changes {
        remote,
        local,
        synced,
    } = changes;
    let effect = effect_of(l, &local, &remote, h);
    Ok(Op {
        number: 0,
        verb,
        id,
        other: NodeId(0),
        remote,
        local,
        synced,
        old_local: copy_of(alloc, l)?,
        old_synced: copy_of(alloc, s)?,
        base: 0,
        effect,
    })
}
