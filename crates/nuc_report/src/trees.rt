ghost use Rattle.std.specs.Prelude.{◌≡◌, [], ◌++◌, slice_get, IfOk, OnOk, option_copied};
ghost use Rattle.std.specs.FinMap.{keys};
ghost use Rattle.std.specs.Option.{option_map_or};
ghost use Rattle.std.specs.String.{string_bytes};
ghost use Rattle.nuc_report.specs.Report.{kind_word, line_at, node_line, tree_text};

use crate::entry::escaped;
use nuc_base::{Kind, Node, NodeId, TreeLike};
use std::alloc::{AllocError, Global};

/// Pushes a line for each node of a tree.
pub(crate) fn push_tree<T: TreeLike>(
    alloc: Global,
    text: &mut String,
    tree: &T,
) -> Result<(), AllocError>
    ensures { OnOk result (string_bytes text.new ≡ string_bytes text.old ++ tree_text (T.nodes tree.now)) }
{
    for i in 0..tree.len() {
        push_nth(alloc, text, tree, i)?;
    }
    Ok(())
}

/// Pushes the line of the tree's node at this position.
fn push_nth<T: TreeLike>(
    alloc: Global,
    text: &mut String,
    tree: &T,
    i: u64,
) -> Result<(), AllocError>
    ensures { OnOk result (string_bytes text.new ≡ string_bytes text.old ++ option_map_or (line_at (T.nodes tree.now)) (slice_get (keys (T.nodes tree.now)) i) []) }
{
    match tree.nth(i) {
        Some(id) => push_node(alloc, text, id, tree.get(id)),
        None => Ok(()),
    }
}

fn push_node(
    alloc: Global,
    text: &mut String,
    id: NodeId,
    node: Option<&Node>,
) -> Result<(), AllocError>
    ensures { OnOk result (string_bytes text.new ≡ string_bytes text.old ++ option_map_or (node_line id.0) (option_copied node.entry) []) }
{
    if let Some(node) = node {
        text.push_str(node_line(alloc, id, node)?.as_str())?;
    }
    Ok(())
}

fn node_line(alloc: Global, id: NodeId, node: &Node) -> Result<String, AllocError>
    ensures { IfOk result (λ text. string_bytes text ≡ node_line id.0 node.now) }
{
    let id = id.0;
    let parent = node.place.parent.0;
    let kind = kind_word(node.kind, node.bit);
    let ver = node.ver.0;
    let name = escaped(alloc, node.place.name.bytes())?;
    format!(in alloc; "node {id} {parent} {kind} {ver} {name}\n")
}

fn kind_word(kind: Kind, bit: bool) -> &'static str
    ensures { result.now ≡ kind_word kind bit }
{
    match (kind, bit) {
        (Kind::Folder, _) => "folder",
        (Kind::File, false) => "file",
        (Kind::File, true) => "program",
    }
}
