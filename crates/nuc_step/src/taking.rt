ghost use Rattle.std.specs.Prelude.{◌≡◌, ◌+◌, ◌*◌, ◌<◌, ◌++◌, [], IfOk, OnErr, OnOk, length};
ghost use Rattle.nuc_base.specs.Trees.{WellFormed};
ghost use Rattle.nuc_edits.specs.Edits.{IsNext};
ghost use Rattle.nuc_observe.specs.Keys.{key_map};
ghost use Rattle.nuc_observe.specs.Made.{nodes_in};
ghost use Rattle.nuc_replica.specs.Local.{HaveKeys};
ghost use Rattle.nuc_step.specs.Scanning.{CanMake, VersionsFrom, changes_after};

use crate::turning::counted_beside;
use nuc_base::{Counters, TreeLike};
use nuc_edits::{Edit, Edits};
use nuc_observe::{Keys, Observed, tree_of};
use std::alloc::{AllocError, Global};

/// The tree and the keys that are observed.
pub(crate) fn local_parts<T: TreeLike + Drop>(
    alloc: Global,
    all: &Observed,
) -> Result<(T, Keys), AllocError>
    requires { CanMake all.now }
    ensures tree { IfOk result (λ parts. T.nodes parts.0 ≡ nodes_in all.now.nodes.items) }
    ensures form { IfOk result (λ parts. WellFormed (T.nodes parts.0)) }
    ensures keys { IfOk result (λ parts. parts.1.now ≡ key_map all.now.keys.items) }
    ensures follow { IfOk result (λ parts. HaveKeys (T.nodes parts.0) parts.1.now) }
    ensures settled { IfOk result (λ parts. parts.1.past ≡ []) }
{
    let tree = tree_of(alloc, all.listed.as_slice())?;
    let keys = Keys::of(alloc, all.keys.as_slice())?;
    Ok((tree, keys))
}

/// How often Local has changed after so many identities have another value. So many changes more can be counted.
pub(crate) fn counted_if(changes: u64, count: u64, flying: u64) -> Result<u64, AllocError>
    ensures counts { IfOk result (λ n. n ≡ changes_after count changes) }
    ensures fits { IfOk result (λ n. n + flying < 18446744073709551616) }
{
    counted_beside(changes, count > 0, flying)
}

/// The room in Local for what flies.
pub(crate) fn room_for(flying: u64) -> Result<u64, AllocError>
    ensures { IfOk result (λ room. room ≡ 2 * flying) }
{
    flying.checked_mul(2).ok_or(AllocError)
}

/// Enters edits that have the next versions in turn. After an `Err` it may have entered the first of them.
pub(crate) fn enter_all(
    edits: &mut Edits,
    ids: &mut Counters,
    found: Vec<Edit>,
) -> Result<(), AllocError>
    requires next { IsNext ids.old.next_ver edits.old.now.edits }
    requires versions { VersionsFrom ids.old.next_ver found.items }
    ensures edits { OnOk result (edits.new.now ≡ record edits.old.now { edits = edits.old.now.edits ++ found.items }) }
    ensures version { OnOk result (ids.new.next_ver ≡ ids.old.next_ver + length found.items) }
    ensures id { ids.new.next_id ≡ ids.old.next_id }
    ensures next { IsNext ids.new.next_ver edits.new.now.edits }
    ensures settled { edits.new.settled ≡ edits.old.settled }
{
    for edit in found {
        edits.enter(ids, edit.id, edit.base, edit.what)?;
    }
    Ok(())
}
