ghost use Rattle.std.specs.Prelude.{◌≡◌, ◌++◌, IfOk, OnOk};
ghost use Rattle.std.specs.List.{flat_map};
ghost use Rattle.std.specs.String.{string_bytes};
ghost use Rattle.nuc_log.specs.declared.event.Event.TheVariants as event;
ghost use Rattle.nuc_report.specs.Entry.{entry_text, event_words, file_word, item_line, item_words, op_line, reply_lines, verb_word};
ghost use Rattle.nuc_script.specs.Text.{escaped, joined};

use crate::answers::reply_text;
use nuc_class::{Op, Verb};
use nuc_folder::{Item, UserEdit};
use nuc_hash::{Content, hash_text};
use nuc_log::{Event, LogEntry, Reply};
use nuc_script::{content_text, path_text, push_escaped, switch_text, web_line};
use nuc_step::Planned;
use std::alloc::{AllocError, Global};

/// What an entry of the log prints: its line, and below it the items that were listed or the operations that were planned.
pub fn log_line(alloc: Global, entry: &LogEntry) -> Result<String, AllocError>
    ensures { IfOk result (λ text. string_bytes text ≡ entry_text entry.now) }
{
    match entry {
        LogEntry::Opened { clients, kept } => {
            let state = if *kept { "kept" } else { "fresh" };
            format!(in alloc; "open {clients} {state}\n")
        }
        LogEntry::Stepped { event, reply } => {
            let event = event_text(alloc, event)?;
            let answer = reply_text(alloc, reply)?;
            let lines = reply_lines(alloc, reply)?;
            format!(in alloc; "{event}{answer}\n{lines}")
        }
    }
}

fn event_text(alloc: Global, event: &Event) -> Result<String, AllocError>
    ensures { IfOk result (λ text. string_bytes text ≡ joined (event_words event.now)) }
{
    match event {
        Event::User { client, edit } => user_text(alloc, *client, edit),
        Event::Web { edit } => web_line(alloc, edit),
        Event::List { client } => format!(in alloc; "list {client}"),
        Event::Scan { client } => format!(in alloc; "scan {client}"),
        Event::Watch { client } => format!(in alloc; "watch {client}"),
        Event::Pull { client } => format!(in alloc; "pull {client}"),
        Event::Plan { client } => format!(in alloc; "plan {client}"),
        Event::Start { client, number } => format!(in alloc; "start {client} {number}"),
        Event::Take { client, number } => format!(in alloc; "take {client} {number}"),
        Event::Done { client, number } => format!(in alloc; "done {client} {number}"),
        Event::Restart { client } => format!(in alloc; "restart {client}"),
        Event::Mark { client } => format!(in alloc; "sync {client}"),
    }
}

/// What the client's user did.
fn user_text(alloc: Global, client: u32, edit: &UserEdit) -> Result<String, AllocError>
    ensures { IfOk result (λ text. string_bytes text ≡ joined (event_words (event.User client edit.now))) }
{
    match edit {
        UserEdit::Mkdir(path) => {
            let path = path_text(alloc, path)?;
            format!(in alloc; "user {client} mkdir {path}")
        }
        UserEdit::Write(path, content) => {
            let path = path_text(alloc, path)?;
            let content = content_text(alloc, content)?;
            format!(in alloc; "user {client} write {path} {content}")
        }
        UserEdit::Move(from, to) => {
            let from = path_text(alloc, from)?;
            let to = path_text(alloc, to)?;
            format!(in alloc; "user {client} move {from} {to}")
        }
        UserEdit::Remove(path) => {
            let path = path_text(alloc, path)?;
            format!(in alloc; "user {client} remove {path}")
        }
        UserEdit::Bit(path, on) => {
            let path = path_text(alloc, path)?;
            let switch = switch_text(*on);
            format!(in alloc; "user {client} bit {path} {switch}")
        }
    }
}

fn reply_lines(alloc: Global, reply: &Reply) -> Result<String, AllocError>
    ensures { IfOk result (λ text. string_bytes text ≡ reply_lines reply.now) }
{
    let mut lines = String::new(alloc);
    match reply {
        Reply::Listed { items, .. } => push_items(alloc, &mut lines, items.as_slice())?,
        Reply::Plan(Planned::Batch(ops)) => push_ops(alloc, &mut lines, ops.as_slice())?,
        Reply::Plan(Planned::Booked(op) | Planned::Mend(op)) => return op_line(alloc, op),
        _ => {}
    }
    Ok(lines)
}

pub(crate) fn push_items(alloc: Global, text: &mut String, items: &[Item]) -> Result<(), AllocError>
    ensures { OnOk result (string_bytes text.new ≡ string_bytes text.old ++ flat_map item_line items.now) }
{
    for item in items {
        text.push_str(item_line(alloc, item)?.as_str())?;
    }
    Ok(())
}

fn item_line(alloc: Global, item: &Item) -> Result<String, AllocError>
    ensures { IfOk result (λ text. string_bytes text ≡ item_line item.now) }
{
    let key = item.key.0;
    let parent = item.parent.0;
    let content = item_text(alloc, item.bit, &item.content)?;
    let name = escaped(alloc, item.name.as_slice())?;
    format!(in alloc; "item {key} {parent} {content} {name}\n")
}

fn item_text(alloc: Global, bit: bool, content: &Option<Content>) -> Result<String, AllocError>
    ensures { IfOk result (λ text. string_bytes text ≡ joined (item_words bit content.now)) }
{
    match content {
        None => String::from_str(alloc, "folder 0 -"),
        Some(content) => {
            let size = content.size();
            let hash = hash_text(alloc, content.hash())?;
            let file = file_word(bit);
            format!(in alloc; "{file} {size} {hash}")
        }
    }
}

fn file_word(bit: bool) -> &'static str
    ensures { result.now ≡ file_word bit }
{
    if bit { "program" } else { "file" }
}

/// Bytes as one printed word.
pub(crate) fn escaped(alloc: Global, bytes: &[u8]) -> Result<String, AllocError>
    ensures { IfOk result (λ word. string_bytes word ≡ escaped bytes.now) }
{
    let mut word = String::new(alloc);
    push_escaped(&mut word, bytes)?;
    Ok(word)
}

fn push_ops(alloc: Global, text: &mut String, ops: &[Op]) -> Result<(), AllocError>
    ensures { OnOk result (string_bytes text.new ≡ string_bytes text.old ++ flat_map op_line ops.now) }
{
    for op in ops {
        text.push_str(op_line(alloc, op)?.as_str())?;
    }
    Ok(())
}

fn op_line(alloc: Global, op: &Op) -> Result<String, AllocError>
    ensures { IfOk result (λ text. string_bytes text ≡ op_line op.now) }
{
    let number = op.number;
    let verb = verb_word(op.verb);
    let id = op.id.0;
    let other = op.other.0;
    format!(in alloc; "op {number} {verb} {id} {other}\n")
}

fn verb_word(verb: Verb) -> &'static str
    ensures { result.now ≡ verb_word verb }
{
    match verb {
        Verb::Down => "down",
        Verb::Up => "up",
        Verb::CutDown => "cutdown",
        Verb::CutUp => "cutup",
        Verb::Forget => "forget",
        Verb::Adopt => "adopt",
        Verb::Split => "split",
        Verb::Unmove => "unmove",
        Verb::Revive => "revive",
        Verb::Evict => "evict",
    }
}
