ghost use Rattle.std.specs.Prelude.{◌≡◌, ◌≢◌, [], IfErr, MatchBool};
ghost use Rattle.nuc_io.specs.Causes.{HasCause};
ghost use Rattle.nuc_report.specs.Output.{refusal_text};
ghost use Rattle.nuc_run.specs.AtRest.{PlansAreExact, RestsThroughout};
ghost use Rattle.nuc_run.specs.Outcome.{AreRun, EndsAs, IsBegun, JudgesWords, RunsCommands, RunsScript, WritesOutput, WritesRun};
ghost use Rattle.nuc_run.specs.Sound.{IsSoundThroughout};
ghost use Rattle.nuc_run.specs.Statuses.{HasText, IsRefusal, IsStatusOf, WasRun};
ghost use Rattle.nuc_script.specs.Fitting.{FitBehind};
ghost use Rattle.nuc_script.specs.Taking.{TookLines};

use crate::commands::{clients_of, run_commands};
use crate::stalled::is_stalled;
use nuc_index::IndexTree;
use nuc_io::{Sink, Source, write_all};
use nuc_log::Log;
use nuc_report::{Ended, Status, output as output_text, refusal};
use nuc_script::{Command, ScriptRead, read_script};
use nuc_world::{Stop, World};
use std::alloc::Global;
use std::rc::RcStr;

/// Reads a script, runs it over a fresh world in memory, and writes the log, the report and the status.
///
/// The words are those of the command line behind the program's name; the one command is `run`. Nothing is run where
/// the script has a fault, and nothing is written where memory was wanted before the output or for its text.
pub fn run_script<S: Source, K: Sink>(
    alloc: Global,
    words: &[RcStr],
    input: &mut S,
    output: &mut K,
) -> Ended
    // Why it ended so, and the log of what was done.
    ensures words { JudgesWords words.now result.before }
    ensures script { RunsScript (S.left input.old) result.before result.log (S.left input.new) }
    ensures lines { TookLines 1000001 (S.left input.old) (S.left input.new) }
    ensures end { IsBegun result.before → S.ended input.new }
    ensures read { HasCause (S.faults input.old) (S.faults input.new) (result.before ≡ Status.ReadFault) }

    // What holds after each step of the log, of each plan, and wherever a client is left alone.
    ensures sound { IsSoundThroughout result.log }
    ensures plans { PlansAreExact result.log }
    ensures rests { RestsThroughout result.log }

    // What was written.
    ensures status { EndsAs result.before result.status }
    ensures output { WritesRun (K.held output.old) result.before result.log result.status (K.held output.new) }
    ensures write { HasCause (K.faults output.old) (K.faults output.new) (result.status ≡ Status.WriteFault) }
{
    if !are_run(words) {
        return refuse(alloc, Status::Usage, output);
    }
    match read_script(alloc, input) {
        ScriptRead::Commands(commands) => run(alloc, commands.as_slice(), output),
        ScriptRead::Fault { line, kind } => {
            refuse(alloc, Status::ScriptFault { line, kind }, output)
        }
        ScriptRead::ReadFault => refuse(alloc, Status::ReadFault, output),
        ScriptRead::Memory => no_memory(alloc),
    }
}

fn are_run(words: &[RcStr]) -> bool
    ensures { MatchBool result (AreRun words.now) (¬ (AreRun words.now)) }
{
    match words {
        [word] => word.as_str() == "run",
        _ => false,
    }
}

/// Ends a run that couldn't begin.
fn refuse<K: Sink>(alloc: Global, before: Status, output: &mut K) -> Ended
    requires { IsRefusal before }
    ensures before { result.before ≡ before }
    ensures log { result.log ≡ [] }
    ensures status { EndsAs before result.status }
    ensures output { WritesOutput (K.held output.old) result.status (refusal_text before) (K.held output.new) }
    ensures write { HasCause (K.faults output.old) (K.faults output.new) (result.status ≡ Status.WriteFault) }
{
    let status = match refusal(alloc, &before) {
        Ok(text) => send(output, text.as_str(), before),
        Err(_) => Status::Memory,
    };
    Ended {
        status,
        before,
        log: Log::new(alloc),
    }
}

/// Ends a run that found no memory to begin with. It writes nothing.
fn no_memory(alloc: Global) -> Ended
    ensures { result ≡ record { status = Status.Memory; before = Status.Memory; log = [] } }
{
    Ended {
        status: Status::Memory,
        before: Status::Memory,
        log: Log::new(alloc),
    }
}

/// Runs the commands, and writes what came of them.
fn run<K: Sink>(alloc: Global, commands: &[Command], output: &mut K) -> Ended
    requires { FitBehind [] commands.now }
    ensures before { RunsCommands commands.now result.before result.log }
    ensures status { EndsAs result.before result.status }
    ensures output { WritesRun (K.held output.old) result.before result.log result.status (K.held output.new) }
    ensures write { HasCause (K.faults output.old) (K.faults output.new) (result.status ≡ Status.WriteFault) }
{
    let clients = clients_of(commands);
    let Ok(mut world) = World::<IndexTree>::empty(alloc, clients) else {
        return no_memory(alloc);
    };
    let ran = run_commands(alloc, &mut world, commands);
    let before = status_of(ran, world.log(), clients);
    let status = print(alloc, before, &world, output);
    Ended {
        status,
        before,
        log: world.into_log(),
    }
}

/// The status of a run that came to its end, or that was cut for this reason.
fn status_of(ran: Result<(), Stop>, log: &Log, clients: u32) -> Status
    requires { IfErr ran (λ stop. stop ≢ Stop.NoClient) }
    ensures { IsStatusOf clients log.now ran result }
{
    match ran {
        Ok(()) => {
            if is_stalled(log, clients) {
                Status::Stalled
            } else {
                Status::Ok
            }
        }
        Err(Stop::NoClient) => unreachable!(),
        Err(Stop::LogFull) => Status::LogFull,
        Err(Stop::FolderFault) => Status::FolderFault,
        Err(Stop::TooLong(_)) => Status::ListingTooLong,
        Err(Stop::Memory) => Status::Memory,
    }
}

/// Writes all that is printed of a run: nothing where it wanted memory.
fn print<K: Sink>(alloc: Global, before: Status, world: &World<IndexTree>, output: &mut K) -> Status
    requires { WasRun before }
    ensures status { EndsAs before result }
    ensures output { WritesRun (K.held output.old) before world.now.log result (K.held output.new) }
    ensures write { HasCause (K.faults output.old) (K.faults output.new) (result ≡ Status.WriteFault) }
{
    match before {
        Status::Memory => Status::Memory,
        _ => report(alloc, before, world, output),
    }
}

/// Writes log, report and status of a run.
fn report<K: Sink>(
    alloc: Global,
    before: Status,
    world: &World<IndexTree>,
    output: &mut K,
) -> Status
    requires { IsBegun before }
    ensures status { EndsAs before result }
    ensures output { WritesRun (K.held output.old) before world.now.log result (K.held output.new) }
    ensures write { HasCause (K.faults output.old) (K.faults output.new) (result ≡ Status.WriteFault) }
{
    let log = world.log();
    let view = world.view();
    match output_text(alloc, &before, log, &view) {
        Ok(text) => send(output, text.as_str(), before),
        Err(_) => Status::Memory,
    }
}

/// Writes a text, and says how the run ends by that.
fn send<K: Sink>(output: &mut K, text: &str, before: Status) -> Status
    requires { HasText before }
    ensures status { EndsAs before result }
    ensures output { WritesOutput (K.held output.old) result text.now (K.held output.new) }
    ensures write { HasCause (K.faults output.old) (K.faults output.new) (result ≡ Status.WriteFault) }
{
    match write_all(output, text.as_bytes()) {
        Ok(()) => before,
        Err(_) => Status::WriteFault,
    }
}
