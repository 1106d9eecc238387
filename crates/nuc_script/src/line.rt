ghost use Rattle.std.specs.Prelude.{◌≡◌, map};
ghost use Rattle.std.specs.List.{list_any};
ghost use Rattle.nuc_script.specs.Meaning.{Gives};
ghost use Rattle.nuc_script.specs.Lines.{is_control, line_meaning, numbered_meaning, words_meaning};

use crate::commands::{clients_of, command_of};
use crate::escape::unescape;
use crate::fault::Stop;
use crate::verb::verb_of;
use crate::words::{is_comment, words_of};
use crate::{Command, LineFault};
use std::alloc::Global;

/// The most lines of a script.
pub(crate) const MOST_LINES: u64 = 1_000_000;

/// The most bytes of a line, without its end.
const MOST_BYTES: usize = 4096;

/// The command that the line with this number, without its end, gives behind the commands before it, if it gives one.
pub(crate) fn judge(
    alloc: Global,
    number: u64,
    before: &[Command],
    line: &[u8],
) -> Result<Option<Command>, Stop>
    ensures { Gives (λ found. found) result (numbered_meaning number before.now line.now) }
{
    if number > MOST_LINES {
        return Err(Stop::Fault(LineFault::Many));
    }
    judge_line(alloc, before, line)
}

#[tactic(auto, unfolding(crate::specs::Lines::line_meaning))]
fn judge_line(alloc: Global, before: &[Command], line: &[u8]) -> Result<Option<Command>, Stop>
    ensures { Gives (λ found. found) result (line_meaning before.now line.now) }
{
    if line.len() > MOST_BYTES {
        return Err(Stop::Fault(LineFault::Long));
    }
    if has_control(line) {
        return Err(Stop::Fault(LineFault::Byte));
    }
    let words = words_of(alloc, line)?;
    judge_words(alloc, before, &words)
}

fn has_control(line: &[u8]) -> bool
    ensures { result ≡ list_any is_control line.now }
{
    for byte in line {
        if is_control(*byte) {
            return true;
        }
    }
    false
}

fn is_control(byte: u8) -> bool
    ensures { result ≡ is_control byte }
{
    byte < 32 || byte == 127
}

#[tactic(auto, unfolding(crate::specs::Lines::words_meaning))]
fn judge_words(alloc: Global, before: &[Command], words: &[&[u8]]) -> Result<Option<Command>, Stop>
    ensures { Gives (λ found. found) result (words_meaning before.now (map (λ word. word.now) words.now)) }
{
    let Some((first, others)) = words.split_first() else {
        return Ok(None);
    };
    if is_comment(first) {
        return Ok(None);
    }
    let first = unescape(alloc, first)?;
    let verb = verb_of(&first);
    let command = command_of(alloc, verb, clients_of(before), !before.is_empty(), others)?;
    Ok(Some(command))
}
