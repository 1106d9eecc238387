ghost use Rattle.std.specs.Prelude.{◌≡◌, ◌++◌, List, map, IfOk, OnOk};
ghost use Rattle.std.specs.List.{flat_map};
ghost use Rattle.std.specs.String.{string_bytes};
ghost use Rattle.nuc_report.specs.Report.{ClientSeen, Seen, client_text, report_text};
ghost use Rattle.nuc_report.specs.Seen.{AreSeen, IsClientSeen, IsSeen, client_seen, shown_by, shown_of};

use crate::edits::{push_adoptions, push_edits};
use crate::entry::push_items;
use crate::trees::push_tree;
use nuc_base::TreeLike;
use nuc_folder::Item;
use nuc_log::{Member, View};
use nuc_step::Client;
use std::alloc::{AllocError, Global};

/// The report of a world, from its line `report` to that of the last adoption.
pub fn report<T: TreeLike>(alloc: Global, view: &View<'_, T>) -> Result<String, AllocError>
    ensures { IfOk result (λ text. (seen : Seen) × IsSeen (shown_by view.now) seen × (string_bytes text ≡ report_text seen)) }
{
    let mut text = String::new(alloc);
    push_report(alloc, &mut text, view)?;
    Ok(text)
}

pub(crate) fn push_report<T: TreeLike>(
    alloc: Global,
    text: &mut String,
    view: &View<'_, T>,
) -> Result<(), AllocError>
    ensures { OnOk result ((seen : Seen) × IsSeen (shown_by view.now) seen × (string_bytes text.new ≡ string_bytes text.old ++ report_text seen)) }
{
    let revision = view.server.journal().last();
    let head = format!(in alloc; "report\nserver {revision}\n")?;
    text.push_str(head.as_str())?;
    push_tree(alloc, text, view.server.tree())?;
    push_members(alloc, text, view.members)?;
    push_edits(alloc, text, view.edits)?;
    push_adoptions(alloc, text, view.edits)?;
    Ok(())
}

/// Pushes what there is to be seen of each client, under the numbers from 1 on.
fn push_members<T: TreeLike>(
    alloc: Global,
    text: &mut String,
    members: &[Member<T>],
) -> Result<(), AllocError>
    ensures { OnOk result ((seen : List ClientSeen) × AreSeen 1 (map shown_of members.now) seen × (string_bytes text.new ≡ string_bytes text.old ++ flat_map client_text seen)) }
{
    for i in 0..members.len() {
        let number = i as u64 + 1;
        push_member(alloc, text, number, &members[i])?;
    }
    Ok(())
}

fn push_member<T: TreeLike>(
    alloc: Global,
    text: &mut String,
    number: u64,
    member: &Member<T>,
) -> Result<(), AllocError>
    ensures { OnOk result ((seen : ClientSeen) × IsClientSeen number (shown_of member.now) seen × (string_bytes text.new ≡ string_bytes text.old ++ client_text seen)) }
{
    let items = member.folder.items(alloc)?;
    push_client(alloc, text, number, &member.client, items.as_slice())?;
    Ok(())
}

/// Pushes a client's part: its trees, and the items of its folder.
fn push_client<T: TreeLike>(
    alloc: Global,
    text: &mut String,
    number: u64,
    client: &Client<T>,
    items: &[Item],
) -> Result<(), AllocError>
    ensures { OnOk result (string_bytes text.new ≡ string_bytes text.old ++ client_text (client_seen number client.now.now items.now)) }
{
    let cursor = client.cursor();
    let changes = client.changes();
    let head = format!(in alloc; "client {number} {cursor} {changes}\n")?;
    text.push_str(head.as_str())?;
    text.push_str("remote\n")?;
    push_tree(alloc, text, client.remote())?;
    text.push_str("local\n")?;
    push_tree(alloc, text, client.local())?;
    text.push_str("synced\n")?;
    push_tree(alloc, text, client.synced())?;
    text.push_str("folder\n")?;
    push_items(alloc, text, items)?;
    Ok(())
}
