ghost use Rattle.std.specs.Prelude.{◌≡◌, ◌≤◌, IfOk};
ghost use Rattle.nuc_script.specs.Meaning.{Gives};
ghost use Rattle.nuc_script.specs.Arguments.{client_word, number_word, path_word, content_word, switch_of, switch_word, order_word};

use crate::LineFault;
use crate::content::content_of;
use crate::escape::unescape;
use crate::fault::Stop;
use crate::number::number_within;
use crate::path::path_of;
use nuc_base::Path;
use nuc_hash::Filling;
use std::alloc::Global;

/// A client of the script.
#[tactic(auto, unfolding(crate::specs::Arguments::client_word))]
pub(crate) fn client_word(alloc: Global, clients: u32, word: &[u8]) -> Result<u32, Stop>
    ensures { Gives (λ client. client) result (client_word clients word.now) }
{
    let word = unescape(alloc, word)?;
    match number_within(&word, 1, u64::from(clients)) {
        Some(client) => Ok(client as u32),
        None => Err(Stop::Fault(LineFault::Client)),
    }
}

/// A number from 1 up to the most.
#[tactic(auto, unfolding(crate::specs::Arguments::number_word))]
pub(crate) fn number_word(alloc: Global, most: u64, word: &[u8]) -> Result<u64, Stop>
    ensures value { Gives (λ number. number) result (number_word most word.now) }
    ensures small { IfOk result (λ number. number ≤ most) }
{
    let word = unescape(alloc, word)?;
    match number_within(&word, 1, most) {
        Some(number) => Ok(number),
        None => Err(Stop::Fault(LineFault::Number)),
    }
}

#[tactic(auto, unfolding(crate::specs::Arguments::path_word))]
pub(crate) fn path_word(alloc: Global, word: &[u8]) -> Result<Path, Stop>
    ensures { Gives (λ path. path) result (path_word word.now) }
{
    let word = unescape(alloc, word)?;
    match path_of(alloc, &word)? {
        Some(path) => Ok(path),
        None => Err(Stop::Fault(LineFault::Path)),
    }
}

#[tactic(auto, unfolding(crate::specs::Arguments::content_word))]
pub(crate) fn content_word(alloc: Global, word: &[u8]) -> Result<Filling, Stop>
    ensures { Gives (λ content. content) result (content_word word.now) }
{
    let word = unescape(alloc, word)?;
    match content_of(alloc, &word)? {
        Some(content) => Ok(content),
        None => Err(Stop::Fault(LineFault::Content)),
    }
}

/// `on` or `off`.
#[tactic(auto, unfolding(crate::specs::Arguments::switch_word))]
pub(crate) fn switch_word(alloc: Global, word: &[u8]) -> Result<bool, Stop>
    ensures { Gives (λ on. on) result (switch_word word.now) }
{
    let word = unescape(alloc, word)?;
    match switch_of(&word) {
        Some(on) => Ok(on),
        None => Err(Stop::Fault(LineFault::Switch)),
    }
}

fn switch_of(word: &[u8]) -> Option<bool>
    ensures { result ≡ switch_of word.now }
{
    if word == b"on".as_slice() {
        Some(true)
    } else if word == b"off".as_slice() {
        Some(false)
    } else {
        None
    }
}

/// The word `reverse`.
#[tactic(auto, unfolding(crate::specs::Arguments::order_word))]
pub(crate) fn order_word(alloc: Global, word: &[u8]) -> Result<bool, Stop>
    ensures { Gives (λ reverse. reverse) result (order_word word.now) }
{
    let word = unescape(alloc, word)?;
    if word.as_slice() == b"reverse".as_slice() {
        Ok(true)
    } else {
        Err(Stop::Fault(LineFault::Order))
    }
}
