ghost use Rattle.std.specs.Prelude.{◌≡◌, ◌++◌, IfErr, IfOk};
ghost use Rattle.nuc_observe.specs.Known.{before_of};
ghost use Rattle.nuc_observe.specs.Listing.{IsGoodListing};
ghost use Rattle.nuc_observe.specs.Observed.{Before, IsInOrderBy, IsObserved, ObserveFaulty, listed_ids, observed_nodes};

use crate::deletions::deletions_of;
use crate::gather::{Known, gather};
use crate::identities::identities_of;
use crate::scanned::Observed;
use crate::{Keys, ObserveFault, ObservedNode, first_bad};
use nuc_base::{Counters, TreeLike};
use nuc_edits::{Edit, Edits};
use nuc_folder::Item;
use std::alloc::{AllocError, Global};

/// The new Local of a listing, by the keys, the trees and the edits before it. Nothing that it is given changes.
///
/// A known key keeps its identity, and other keys get the next ones. A file keeps a version whose content it has; else its
/// content is put as a new version. A file of Local that isn't listed is deleted by an edit. A counter at its end counts as
/// want of memory.
pub fn observed<T: TreeLike>(
    alloc: Global,
    items: &[Item],
    keys: &Keys,
    remote: &T,
    local: &T,
    synced: &T,
    ids: &Counters,
    edits: &Edits,
) -> Result<Observed, ObserveFault>
    ensures good { IfOk result (λ all. IsGoodListing keys.now.now (T.nodes local.now) items.now) }
    ensures all { let before : Before = record { keys = keys.now.now; remote = T.nodes remote.now; local = T.nodes local.now; synced = T.nodes synced.now; edits = edits.now.now.edits } in
        IfOk result (λ all. IsObserved before items.now ids.now all.nodes.items all.keys.items all.edits.items all.ids) }
    ensures listed { let before : Before = record { keys = keys.now.now; remote = T.nodes remote.now; local = T.nodes local.now; synced = T.nodes synced.now; edits = edits.now.now.edits } in
        IfOk result (λ all. all.listed.items ≡ observed_nodes before (listed_ids keys.now.now ids.now.next_id items.now) ids.now.next_ver items.now) }
    ensures fault { IfErr result (ObserveFaulty keys.now.now (T.nodes local.now) items.now) }
{
    let known = Known {
        keys,
        remote,
        local,
        synced,
        edits,
    };
    match first_bad(alloc, items, keys, local) {
        Ok(None) => match observed_good(alloc, items, &known, ids) {
            Ok(all) => Ok(all),
            Err(_) => Err(ObserveFault::Memory),
        },
        Ok(Some(number)) => Err(ObserveFault::BadListing(number)),
        Err(_) => Err(ObserveFault::Memory),
    }
}

/// That of a good listing.
fn observed_good<T: TreeLike>(
    alloc: Global,
    items: &[Item],
    known: &Known<T>,
    ids: &Counters,
) -> Result<Observed, AllocError>
    requires { IsGoodListing known.now.keys.now.now (T.nodes known.now.local.now) items.now }
    ensures all { IfOk result (λ all. IsObserved (before_of T.nodes known.now) items.now ids.now all.nodes.items all.keys.items all.edits.items all.ids) }
    ensures listed { let before = before_of T.nodes known.now in
        IfOk result (λ all. all.listed.items ≡ observed_nodes before (listed_ids before.keys ids.now.next_id items.now) ids.now.next_ver items.now) }
{
    let found = identities_of(alloc, items, known.keys, ids.next_id)?;
    let gathered = gather(alloc, items, &found.by_key, known, ids.next_ver)?;
    let deleted = deletions_of(alloc, &found.by_key, known, gathered.next_ver)?;
    let ids = Counters {
        next_id: found.next_id,
        next_ver: deleted.next_ver,
    };
    Ok(Observed {
        nodes: in_order(copies(alloc, &gathered.nodes)?),
        listed: gathered.nodes,
        keys: found.bindings,
        edits: joined(gathered.edits, deleted.edits)?,
        ids,
    })
}

fn copies(alloc: Global, nodes: &[ObservedNode]) -> Result<Vec<ObservedNode>, AllocError>
    ensures { IfOk result (λ made. made.items ≡ nodes.now) }
{
    let mut made = Vec::new(alloc);
    for node in nodes {
        made.push(node.copy(alloc)?)?;
    }
    Ok(made)
}

fn in_order(nodes: Vec<ObservedNode>) -> Vec<ObservedNode>
    ensures { IsInOrderBy (λ n. n.id.0) nodes.items result.items }
{
    let mut nodes = nodes;
    nodes.sort_unstable_by_key(|node| node.id.0);
    nodes
}

fn joined(first: Vec<Edit>, second: Vec<Edit>) -> Result<Vec<Edit>, AllocError>
    ensures { IfOk result (λ all. all.items ≡ first.items ++ second.items) }
{
    let mut all = first;
    let mut rest = second;
    all.append(&mut rest)?;
    Ok(all)
}
