ghost use Rattle.std.specs.Prelude.{IfOk, option_copied, option_map};
ghost use Rattle.nuc_observe.specs.Observed.{Before};
ghost use Rattle.nuc_step.specs.Held.{data_of};
ghost use Rattle.nuc_step.specs.Scanning.{Reads, ReadsItems};

use crate::held::Held;
use nuc_base::{Counters, TreeLike};
use nuc_edits::Edits;
use nuc_folder::Item;
use nuc_observe::{ObserveFault, Observed, observed};
use nuc_replica::Local;
use std::alloc::{AllocError, Global};

/// What a listing gives.
#[derive(Drop)]
pub(crate) enum Read {
    /// There is none.
    Nothing,
    /// Local has changed since it was made.
    Stale,
    /// This item is the first that is bad, counted from 1.
    Bad(u64),
    Good(Observed),
}

/// What the listing gives, where Local has changed so often.
pub(crate) fn read_held<T: TreeLike>(
    alloc: Global,
    held: Option<&Held>,
    changes: u64,
    remote: &T,
    local: &Local<T>,
    synced: &T,
    edits: &Edits,
    ids: &Counters,
) -> Result<Read, AllocError>
    ensures { let before : Before = record { keys = local.now.now.keys; remote = T.nodes remote.now; local = local.now.now.tree; synced = T.nodes synced.now; edits = edits.now.now.edits } in
        IfOk result (λ found. Reads (option_map data_of (option_copied held.entry)) changes before ids.now found) }
{
    match held {
        None => Ok(Read::Nothing),
        Some(held) if held.changes != changes => Ok(Read::Stale),
        Some(held) => {
            let items = held.items.as_slice();
            read_items(alloc, items, remote, local, synced, edits, ids)
        }
    }
}

/// What these items give.
fn read_items<T: TreeLike>(
    alloc: Global,
    items: &[Item],
    remote: &T,
    local: &Local<T>,
    synced: &T,
    edits: &Edits,
    ids: &Counters,
) -> Result<Read, AllocError>
    ensures { let before : Before = record { keys = local.now.now.keys; remote = T.nodes remote.now; local = local.now.now.tree; synced = T.nodes synced.now; edits = edits.now.now.edits } in
        IfOk result (λ found. ReadsItems before ids.now items.now found) }
{
    let (keys, tree) = (local.keys(), local.tree());
    match observed(alloc, items, keys, remote, tree, synced, ids, edits) {
        Ok(all) => Ok(Read::Good(all)),
        Err(ObserveFault::BadListing(number)) => Ok(Read::Bad(number)),
        Err(ObserveFault::Memory) => Err(AllocError),
    }
}
