ghost use Rattle.nucleus_bench.specs.Chain.{IsChain};

use crate::fault::Fault;
use crate::pages;
use nuc_base::{Kind, Name, Node, NodeId, Place, Ver};
use nuc_journal::{Entry, Journal};
use std::alloc::{AllocError, Global};

/// Enters so many folders, each in the one before, settles after each, reads all pages, and asks for each identity's
/// revision.
pub(crate) fn journal(alloc: Global, count: u64) -> Result<String, Fault> {
    let mut journal = Journal::new(alloc);
    push_all(alloc, &mut journal, count)?;
    told(alloc, &journal)
}

fn push_all(alloc: Global, journal: &mut Journal, count: u64) -> Result<(), Fault>
    requires { IsChain journal.old.now }
{
    for _ in 0..count {
        push(alloc, journal)?;
        journal.settle();
    }
    Ok(())
}

fn push(alloc: Global, journal: &mut Journal) -> Result<(), Fault>
    requires { IsChain journal.old.now }
    ensures { IsChain journal.new.now }
{
    let last = journal.last();
    let rev = last.checked_add(1).ok_or(AllocError)?;
    let place = Place {
        parent: NodeId(last),
        name: Name::new(alloc, b"folder")?,
    };
    let node = Node {
        place,
        kind: Kind::Folder,
        ver: Ver(0),
        bit: false,
    };
    journal.push(Entry {
        rev,
        id: NodeId(rev),
        value: Some(node),
        by: 1,
    })?;
    Ok(())
}

fn told(alloc: Global, journal: &Journal) -> Result<String, Fault> {
    let last = journal.last();
    let current = count_current(journal);
    let hash = pages::read(alloc, journal)?;
    Ok(format!(in alloc; "journal {last} entries {current} current {hash}")?)
}

/// How many identities stand.
fn count_current(journal: &Journal) -> usize {
    (1..=journal.last())
        .filter(|id| journal.rev_of(NodeId(*id)) > 0)
        .count()
}
