use crate::fault::Fault;
use crate::known::Known;
use crate::listing::listing;
use nuc_folder::Item;
use std::alloc::Global;

/// Observes a listing of so many items, takes it over, and then observes the same one, or one whose files all have another
/// name and another content, or nothing more. The two listings are made each time, so that what is observed is all that
/// differs.
pub(crate) fn observations(alloc: Global, count: u64, kind: &str) -> Result<String, Fault> {
    let same = listing(alloc, count, false)?;
    let changed = listing(alloc, count, true)?;
    let known = known_of(alloc, &same)?;
    match kind {
        "none" => known.told(alloc),
        "same" => again(alloc, kind, &known, &same),
        "changed" => again(alloc, kind, &known, &changed),
        _ => Err(Fault::Usage),
    }
}

fn known_of(alloc: Global, items: &[Item]) -> Result<Known, Fault> {
    let mut known = Known::new(alloc);
    known.learn(items)?;
    Ok(known)
}

/// What the listing comes to.
fn again(alloc: Global, kind: &str, known: &Known, items: &[Item]) -> Result<String, Fault> {
    let all = known.observe(items)?;
    let nodes = all.nodes.len();
    let keys = all.keys.len();
    let edits = all.edits.len();
    Ok(format!(in alloc; "listing {kind} {nodes} nodes {keys} keys {edits} edits")?)
}
