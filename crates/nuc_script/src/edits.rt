ghost use Rattle.std.specs.Prelude.{◌≡◌, map};
ghost use Rattle.nuc_script.specs.Meaning.{Gives};
ghost use Rattle.nuc_script.specs.Edits.{bit_edit, edit_of, mkdir_edit, move_edit, on_web, remove_edit, web_edit, web_edit_of, write_edit};

use crate::LineFault;
use crate::arguments::{content_word, path_word, switch_word};
use crate::escape::unescape;
use crate::fault::Stop;
use crate::verb::{EditVerb, edit_verb};
use crate::words::{cut_word, one_word, two_words};
use nuc_folder::UserEdit;
use nuc_server::WebEdit;
use std::alloc::Global;

/// The edit that the words behind its own give.
#[tactic(auto, unfolding(crate::specs::Edits::edit_of))]
pub(crate) fn edit_of(alloc: Global, verb: EditVerb, words: &[&[u8]]) -> Result<UserEdit, Stop>
    ensures { Gives (λ edit. edit) result (edit_of verb (map (λ word. word.now) words.now)) }
{
    match verb {
        EditVerb::Mkdir => mkdir_edit(alloc, words),
        EditVerb::Write => write_edit(alloc, words),
        EditVerb::Move => move_edit(alloc, words),
        EditVerb::Remove => remove_edit(alloc, words),
        EditVerb::Bit => bit_edit(alloc, words),
    }
}

#[tactic(auto, unfolding(crate::specs::Edits::mkdir_edit))]
fn mkdir_edit(alloc: Global, words: &[&[u8]]) -> Result<UserEdit, Stop>
    ensures { Gives (λ edit. edit) result (mkdir_edit (map (λ word. word.now) words.now)) }
{
    let word = one_word(words)?;
    let path = path_word(alloc, word)?;
    Ok(UserEdit::Mkdir(path))
}

#[tactic(auto, unfolding(crate::specs::Edits::write_edit))]
fn write_edit(alloc: Global, words: &[&[u8]]) -> Result<UserEdit, Stop>
    ensures { Gives (λ edit. edit) result (write_edit (map (λ word. word.now) words.now)) }
{
    let (path, content) = two_words(words)?;
    let path = path_word(alloc, path)?;
    let content = content_word(alloc, content)?;
    Ok(UserEdit::Write(path, content))
}

#[tactic(auto, unfolding(crate::specs::Edits::move_edit))]
fn move_edit(alloc: Global, words: &[&[u8]]) -> Result<UserEdit, Stop>
    ensures { Gives (λ edit. edit) result (move_edit (map (λ word. word.now) words.now)) }
{
    let (from, to) = two_words(words)?;
    let from = path_word(alloc, from)?;
    let to = path_word(alloc, to)?;
    Ok(UserEdit::Move(from, to))
}

#[tactic(auto, unfolding(crate::specs::Edits::remove_edit))]
fn remove_edit(alloc: Global, words: &[&[u8]]) -> Result<UserEdit, Stop>
    ensures { Gives (λ edit. edit) result (remove_edit (map (λ word. word.now) words.now)) }
{
    let word = one_word(words)?;
    let path = path_word(alloc, word)?;
    Ok(UserEdit::Remove(path))
}

#[tactic(auto, unfolding(crate::specs::Edits::bit_edit))]
fn bit_edit(alloc: Global, words: &[&[u8]]) -> Result<UserEdit, Stop>
    ensures { Gives (λ edit. edit) result (bit_edit (map (λ word. word.now) words.now)) }
{
    let (path, switch) = two_words(words)?;
    let path = path_word(alloc, path)?;
    let on = switch_word(alloc, switch)?;
    Ok(UserEdit::Bit(path, on))
}

/// The web edit that the words behind `web` give.
#[tactic(auto, unfolding(crate::specs::Edits::web_edit))]
pub(crate) fn web_edit(alloc: Global, words: &[&[u8]]) -> Result<WebEdit, Stop>
    ensures { Gives (λ edit. edit) result (web_edit (map (λ word. word.now) words.now)) }
{
    let (word, others) = cut_word(words)?;
    let word = unescape(alloc, word)?;
    web_edit_of(alloc, edit_verb(&word), others)
}

fn web_edit_of(alloc: Global, verb: Option<EditVerb>, words: &[&[u8]]) -> Result<WebEdit, Stop>
    ensures { Gives (λ edit. edit) result (web_edit_of verb (map (λ word. word.now) words.now)) }
{
    let Some(verb) = verb else {
        return Err(Stop::Fault(LineFault::Word));
    };
    let edit = edit_of(alloc, verb, words)?;
    Ok(on_web(edit))
}

/// The same edit, on the web.
fn on_web(edit: UserEdit) -> WebEdit
    ensures { result ≡ on_web edit }
{
    match edit {
        UserEdit::Mkdir(path) => WebEdit::Mkdir(path),
        UserEdit::Write(path, content) => WebEdit::Write(path, content),
        UserEdit::Move(from, to) => WebEdit::Move(from, to),
        UserEdit::Remove(path) => WebEdit::Remove(path),
        UserEdit::Bit(path, on) => WebEdit::Bit(path, on),
    }
}
