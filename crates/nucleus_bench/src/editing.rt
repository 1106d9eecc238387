ghost use Rattle.std.specs.Prelude.{◌≡◌, ◌+◌, [], OnOk};
ghost use Rattle.nucleus_bench.specs.Recording.{AllPut, IsFull};

use crate::fault::Fault;
use nuc_base::{Counters, NodeId, Ver};
use nuc_edits::{EditKind, Edits};
use nuc_hash::{Hasher, content_of, hash_text};
use std::alloc::{AllocError, Global};

/// How many edits each file has.
const EDITS: u64 = 10;

/// Records so many edits, adopts the last of each file into the one before, whose content it has, and asks of each
/// version what is known of it.
pub(crate) fn edits(alloc: Global, count: u64) -> Result<String, Fault> {
    let mut edits = Edits::new(alloc);
    enter_all(alloc, &mut edits, count)?;
    adopt_all(&mut edits, count)?;
    told(alloc, &edits, count)
}

fn told(alloc: Global, edits: &Edits, count: u64) -> Result<String, Fault> {
    let entered = edits.len();
    let based = (1..=count).filter(|ver| edits.based(Ver(*ver))).count();
    let adopted = (1..=count).filter(|ver| edits.adopted(Ver(*ver))).count();
    let hash = hash_contents(alloc, edits, count)?;
    Ok(format!(in alloc; "edits {entered} entered {based} based {adopted} adopted {hash}")?)
}

fn enter_all(alloc: Global, edits: &mut Edits, count: u64) -> Result<(), AllocError>
    requires { edits.old.now.edits ≡ [] }
    ensures { OnOk result (AllPut (count + 1) edits.new.now.edits) }
{
    let mut ids = Counters {
        next_id: 1,
        next_ver: 1,
    };
    for _ in 0..count {
        enter(alloc, edits, &mut ids)?;
    }
    Ok(())
}

/// Records the next edit.
fn enter(alloc: Global, edits: &mut Edits, ids: &mut Counters) -> Result<(), AllocError>
    requires { IsFull ids.old.next_ver edits.old.now.edits }
    ensures counters { OnOk result (ids.new.next_ver ≡ ids.old.next_ver + 1) }
    ensures full { IsFull ids.new.next_ver edits.new.now.edits }
{
    let before = ids.next_ver - 1;
    let place = before % EDITS;
    let id = NodeId(before / EDITS + 1);
    let base = if place == 0 { Ver(0) } else { Ver(before) };
    let number = if place == EDITS - 1 {
        before
    } else {
        ids.next_ver
    };
    let content = content_of(alloc, &number.to_be_bytes())?;
    edits.enter(ids, id, base, EditKind::Put(content))?;
    Ok(())
}

fn adopt_all(edits: &mut Edits, count: u64) -> Result<(), Fault>
    requires { AllPut (count + 1) edits.old.now.edits }
{
    for file in 1..=count / EDITS {
        let last = file * EDITS;
        edits.adopt(Ver(last), Ver(last - 1))?;
    }
    Ok(())
}

fn hash_contents(alloc: Global, edits: &Edits, count: u64) -> Result<String, Fault> {
    let mut hasher = Hasher::new(alloc);
    for ver in 1..=count {
        if let Some(content) = edits.content(Ver(ver)) {
            hasher.update(&content.hash().0)?;
        }
    }
    let content = hasher.finish();
    Ok(hash_text(alloc, content.hash())?)
}
