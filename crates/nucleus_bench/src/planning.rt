ghost use Rattle.std.specs.Prelude.{◌≡◌, ◌==◌, IfOk, IfSome, IsTrue, OnOk};
ghost use Rattle.std.specs.Option.{option_copied};
ghost use Rattle.nuc_base.specs.Kinds.{FitsKind};
ghost use Rattle.nuc_base.specs.Trees.{OneKind, WellFormed};

use crate::fault::Fault;
use crate::layout::{self, FILES};
use nuc_base::{Hashes, Node, NodeId, TreeLike, Ver};
use nuc_index::IndexTree;
use nuc_plan::{Plan, plan};
use std::alloc::{AllocError, Global};

/// Contents that are as their versions.
struct ByVersion;

impl Hashes for ByVersion {
    ghost same = { λ _ a b. a == b };

    fn same(&self, a: Ver, b: Ver) -> bool {
        a.0 == b.0
    }
}

/// Plans so many times over three trees of so many identities, of which the first few have another place in Local.
pub(crate) fn plans(
    alloc: Global,
    count: u64,
    differing: u64,
    times: u64,
) -> Result<String, Fault> {
    let agreed = filled(alloc, count, 0)?;
    let local = filled(alloc, count, differing)?;
    must_agree(&agreed, &agreed)?;
    must_agree(&agreed, &local)?;
    must_agree(&local, &agreed)?;
    let next = NodeId(count.checked_add(1).ok_or(AllocError)?);
    let operations = plan_again(alloc, &agreed, &local, next, times)?;
    Ok(format!(in alloc; "plan {operations} operations")?)
}

/// Plans so many times where Remote and Synced are one tree. Answers how many operations the last plan has.
fn plan_again<T: TreeLike>(
    alloc: Global,
    agreed: &T,
    local: &T,
    next: NodeId,
    times: u64,
) -> Result<u64, Fault>
    requires agreed_form { WellFormed (T.nodes agreed.now) }
    requires local_form { WellFormed (T.nodes local.now) }
    requires agreed_kinds { OneKind (T.nodes agreed.now) (T.nodes agreed.now) }
    requires kinds { OneKind (T.nodes agreed.now) (T.nodes local.now) }
    requires local_kinds { OneKind (T.nodes local.now) (T.nodes agreed.now) }
{
    let mut operations = 0;
    for _ in 0..times {
        let planned = plan(alloc, agreed, local, agreed, &ByVersion, next)?;
        operations = size(&planned);
    }
    Ok(operations)
}

fn size(plan: &Plan) -> u64 {
    match plan {
        Plan::Empty => 0,
        Plan::Booked(_) | Plan::Mend(_) => 1,
        Plan::Batch(ops) => ops.len() as u64,
    }
}

/// Folders with their files, so many nodes in all. The first few have names that are theirs in this tree alone.
fn filled(alloc: Global, count: u64, renamed: u64) -> Result<IndexTree, Fault>
    ensures { IfOk result (λ tree. WellFormed tree.nodes) }
{
    let mut tree = IndexTree::new(alloc);
    let mut parent = NodeId(0);
    for number in 0..count {
        let is_folder = number % (FILES + 1) == 0;
        let node = node(alloc, parent, number, is_folder, number < renamed)?;
        let id = put(&mut tree, node)?;
        if is_folder {
            parent = id;
        }
    }
    Ok(tree)
}

fn node(
    alloc: Global,
    parent: NodeId,
    number: u64,
    is_folder: bool,
    renamed: bool,
) -> Result<Node, Fault>
    ensures { IfOk result FitsKind }
{
    let label = label(number, renamed).ok_or(AllocError)?;
    if is_folder {
        Ok(layout::folder(alloc, label)?)
    } else {
        let ver = Ver(number.checked_add(1).ok_or(AllocError)?);
        Ok(layout::file(alloc, parent, label, ver)?)
    }
}

/// A number for a name, another one where it is renamed.
fn label(number: u64, renamed: bool) -> Option<u64> {
    let twice = number.checked_mul(2)?;
    twice.checked_add(renamed as u64)
}

/// Puts a node under the next identity.
fn put(tree: &mut IndexTree, node: Node) -> Result<NodeId, Fault>
    requires form { WellFormed tree.old.nodes }
    requires fits { FitsKind node }
    ensures { WellFormed tree.new.nodes }
{
    let id = NodeId(tree.len().checked_add(1).ok_or(AllocError)?);
    tree.put(id, node)?;
    Ok(id)
}

/// Refuses two trees in which something has two kinds.
fn must_agree<T: TreeLike>(a: &T, b: &T) -> Result<(), Fault>
    ensures { OnOk result (OneKind (T.nodes a.now) (T.nodes b.now)) }
{
    if agree(a, b) {
        Ok(())
    } else {
        Err(Fault::Refused)
    }
}

/// Whether what stands in both trees has one kind.
fn agree<T: TreeLike>(a: &T, b: &T) -> bool
    ensures { IsTrue result → OneKind (T.nodes a.now) (T.nodes b.now) }
{
    for i in 0..a.len() {
        let Some(id) = a.nth(i) else { return false };
        if !are_alike(a.get(id), b.get(id)) {
            return false;
        }
    }
    true
}

fn are_alike(a: Option<&Node>, b: Option<&Node>) -> bool
    ensures { IsTrue result → IfSome (option_copied a.entry) (λ n. IfSome (option_copied b.entry) (λ k. n.kind ≡ k.kind)) }
{
    match (a, b) {
        (Some(a), Some(b)) => a.kind == b.kind,
        _ => true,
    }
}
