ghost use Rattle.std.specs.Prelude.{◌≡◌, false, OnOk};
ghost use Rattle.nuc_io.specs.Causes.{HasCause};
ghost use Rattle.nuc_io.specs.Line.{IsOneLine};
ghost use Rattle.nuc_script.specs.Lines.{numbered_meaning};
ghost use Rattle.nuc_script.specs.Reading.{added, without_cr};
ghost use Rattle.nuc_script.specs.Taking.{IsCommands, ReadsScript, TookLines};
ghost use Rattle.nuc_script.specs.Steps.{IsEnd, IsLine, IsStop, JudgesWhole, ReadsNext, judged_text, too_long};

use crate::fault::Stop;
use crate::line::{MOST_LINES, judge};
use crate::{Command, LineFault, ScriptRead};
use nuc_io::{Line, LineBuf, Source, read_line};
use sqlite_items::Items;
use std::alloc::{AllocError, Global};

/// Reads a script to the end of the source, or up to its first faulty line.
pub fn read_script<S: Source>(alloc: Global, src: &mut S) -> ScriptRead
    ensures script { ReadsScript (S.left src.old) result (S.left src.new) }
    ensures lines { TookLines 1000001 (S.left src.old) (S.left src.new) }
    ensures end { IsCommands result → S.ended src.new }
    ensures cause { HasCause (S.faults src.old) (S.faults src.new) (result ≡ ScriptRead.ReadFault) }
{
    let mut line = LineBuf::new(alloc);
    let mut commands = Vec::new(alloc);
    for count in 0..MOST_LINES + 1 {
        match next_line(alloc, src, &mut line, count + 1, &commands) {
            Next::Line(found) => {
                if add(&mut commands, found).is_err() {
                    return ScriptRead::Memory;
                }
            }
            Next::Last(found) => {
                if add(&mut commands, found).is_err() {
                    return ScriptRead::Memory;
                }
                return ScriptRead::Commands(Items::from_vec(commands));
            }
            Next::End => return ScriptRead::Commands(Items::from_vec(commands)),
            Next::Fault(kind) => {
                return ScriptRead::Fault {
                    line: count + 1,
                    kind,
                };
            }
            Next::ReadFault => return ScriptRead::ReadFault,
            Next::Memory => return ScriptRead::Memory,
        }
    }
    // The line behind the last that may stand is faulty.
    unreachable!()
}

fn add(commands: &mut Vec<Command>, found: Option<Command>) -> Result<(), AllocError>
    ensures { OnOk result (commands.new.items ≡ added commands.old.items found) }
{
    if let Some(command) = found {
        commands.push(command)?;
    }
    Ok(())
}

/// What comes behind the commands before.
#[derive(Drop)]
enum Next {
    /// A line, and the command that it gives, if it gives one.
    Line(Option<Command>),
    /// The same, and the source ended without an LF.
    Last(Option<Command>),
    End,
    Fault(LineFault),
    ReadFault,
    Memory,
}

fn next_line<S: Source>(
    alloc: Global,
    src: &mut S,
    line: &mut LineBuf,
    number: u64,
    before: &[Command],
) -> Next
    requires { line.old.spent ≡ false }
    ensures next { ReadsNext number before.now (S.left src.old) result (S.left src.new) }
    ensures goes_on { IsLine result → line.new.spent ≡ false }
    ensures end { IsEnd result → S.ended src.new }
    ensures cause { HasCause (S.faults src.old) (S.faults src.new) (result ≡ Next.ReadFault) }
{
    match read_line(src, line) {
        Line::Whole => judge_whole(alloc, number, before, line),
        Line::End => Next::End,
        Line::TooLong => Next::Fault(too_long(number)),
        Line::ReadFault => Next::ReadFault,
        Line::Memory => Next::Memory,
        // The reading stops at the first answer that spends the buffer.
        Line::Spent => unreachable!(),
    }
}

/// The first fault of a line that is too long.
fn too_long(number: u64) -> LineFault
    ensures { result ≡ too_long number }
{
    if number > MOST_LINES {
        LineFault::Many
    } else {
        LineFault::Long
    }
}

/// What a whole line gives behind the commands before.
fn judge_whole(alloc: Global, number: u64, before: &[Command], line: &LineBuf) -> Next
    ensures { JudgesWhole line.now.ended (numbered_meaning number before.now (judged_text line.now.ended line.now.bytes)) result }
{
    if line.ended() {
        match judge(alloc, number, before, without_cr(line.bytes())) {
            Ok(found) => Next::Line(found),
            Err(stop) => stopped(stop),
        }
    } else {
        match judge(alloc, number, before, line.bytes()) {
            Ok(found) => Next::Last(found),
            Err(stop) => stopped(stop),
        }
    }
}

fn stopped(stop: Stop) -> Next
    ensures { IsStop stop result }
{
    match stop {
        Stop::Fault(kind) => Next::Fault(kind),
        Stop::Memory => Next::Memory,
    }
}

/// A line without the one CR before its LF.
fn without_cr(line: &[u8]) -> &[u8]
    ensures { result.now ≡ without_cr line.now }
{
    match line.strip_suffix(b"\r") {
        Some(front) => front,
        None => line,
    }
}
