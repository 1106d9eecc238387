ghost use Rattle.std.specs.Prelude.{◌≡◌, IfOk};
ghost use Rattle.std.specs.String.{string_bytes};
ghost use Rattle.nuc_script.specs.PrintedAgain.{PrintedAgain};
ghost use Rattle.nuc_script.specs.Text.{command_line, joined, script_text, user_words, web_words};

use crate::Command;
use crate::print_words::{content_text, path_text, switch_text};
use nuc_folder::UserEdit;
use nuc_server::WebEdit;
use std::alloc::{AllocError, Global};

/// What is printed of commands that were read gives them again, where no line of it is too long.
pub fn is_read_again()
    ensures { PrintedAgain }
{}

/// The commands in the strict form, a line for each.
pub fn print_script(alloc: Global, list: &[Command]) -> Result<String, AllocError>
    ensures { IfOk result (λ text. string_bytes text ≡ script_text list.now) }
{
    let mut text = String::new(alloc);
    for command in list {
        let line = command_line(alloc, command)?;
        text.push_str(&line)?;
        text.push('\n')?;
    }
    Ok(text)
}

fn command_line(alloc: Global, command: &Command) -> Result<String, AllocError>
    ensures { IfOk result (λ line. string_bytes line ≡ command_line command.now) }
{
    match command {
        Command::Clients(count) => format!(in alloc; "clients {count}"),
        Command::User { client, edit } => user_line(alloc, *client, edit),
        Command::Web(edit) => web_line(alloc, edit),
        Command::List(client) => format!(in alloc; "list {client}"),
        Command::Scan(client) => format!(in alloc; "scan {client}"),
        Command::Watch(client) => format!(in alloc; "watch {client}"),
        Command::Pull(client) => format!(in alloc; "pull {client}"),
        Command::Plan(client) => format!(in alloc; "plan {client}"),
        Command::Restart(client) => format!(in alloc; "restart {client}"),
        Command::Start { client, number } => format!(in alloc; "start {client} {number}"),
        Command::Take { client, number } => format!(in alloc; "take {client} {number}"),
        Command::Done { client, number } => format!(in alloc; "done {client} {number}"),
        Command::Sync {
            client,
            reverse: false,
        } => format!(in alloc; "sync {client}"),
        Command::Sync {
            client,
            reverse: true,
        } => format!(in alloc; "sync {client} reverse"),
        Command::Fail { client, call } => format!(in alloc; "fail {client} {call}"),
    }
}

/// The line of a user's edit.
fn user_line(alloc: Global, client: u32, edit: &UserEdit) -> Result<String, AllocError>
    ensures { IfOk result (λ line. string_bytes line ≡ joined (user_words client edit.now)) }
{
    match edit {
        UserEdit::Mkdir(path) => {
            let path = path_text(alloc, path)?;
            format!(in alloc; "mkdir {client} {path}")
        }
        UserEdit::Write(path, content) => {
            let path = path_text(alloc, path)?;
            let content = content_text(alloc, content)?;
            format!(in alloc; "write {client} {path} {content}")
        }
        UserEdit::Move(from, to) => {
            let from = path_text(alloc, from)?;
            let to = path_text(alloc, to)?;
            format!(in alloc; "move {client} {from} {to}")
        }
        UserEdit::Remove(path) => {
            let path = path_text(alloc, path)?;
            format!(in alloc; "remove {client} {path}")
        }
        UserEdit::Bit(path, on) => {
            let path = path_text(alloc, path)?;
            let switch = switch_text(*on);
            format!(in alloc; "bit {client} {path} {switch}")
        }
    }
}

/// The line of a web edit, without its LF.
pub fn web_line(alloc: Global, edit: &WebEdit) -> Result<String, AllocError>
    ensures { IfOk result (λ line. string_bytes line ≡ joined (web_words edit.now)) }
{
    match edit {
        WebEdit::Mkdir(path) => {
            let path = path_text(alloc, path)?;
            format!(in alloc; "web mkdir {path}")
        }
        WebEdit::Write(path, content) => {
            let path = path_text(alloc, path)?;
            let content = content_text(alloc, content)?;
            format!(in alloc; "web write {path} {content}")
        }
        WebEdit::Move(from, to) => {
            let from = path_text(alloc, from)?;
            let to = path_text(alloc, to)?;
            format!(in alloc; "web move {from} {to}")
        }
        WebEdit::Remove(path) => {
            let path = path_text(alloc, path)?;
            format!(in alloc; "web remove {path}")
        }
        WebEdit::Bit(path, on) => {
            let path = path_text(alloc, path)?;
            let switch = switch_text(*on);
            format!(in alloc; "web bit {path} {switch}")
        }
    }
}
