use crate::fault::Fault;
use nuc_hash::{Hasher, hash_text};
use nuc_journal::{Entry, Journal};
use std::alloc::{AllocError, Global};

/// Reads a journal page by page. The hash of all that its entries say.
pub(crate) fn read(alloc: Global, journal: &Journal) -> Result<String, Fault> {
    let mut hasher = Hasher::new(alloc);
    for after in (0..journal.last()).step_by(64) {
        add(&mut hasher, journal.page(after))?;
    }
    let content = hasher.finish();
    Ok(hash_text(alloc, content.hash())?)
}

/// Adds of each entry the revision, the identity and the name.
fn add(hasher: &mut Hasher, entries: &[Entry]) -> Result<(), AllocError> {
    for entry in entries {
        hasher.update(&entry.rev.to_be_bytes())?;
        hasher.update(&entry.id.0.to_be_bytes())?;
        if let Some(node) = &entry.value {
            hasher.update(node.place.name.bytes())?;
        }
    }
    Ok(())
}
