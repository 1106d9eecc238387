ghost use Rattle.std.specs.Prelude.{◌≡◌, ◌≢◌, [], ◌∷◌, IfErr, IfOk, OnOk, length};
ghost use Rattle.nuc_run.specs.Scripts.{IsEvent, IsOf, script_tasks, tasks_of};
ghost use Rattle.nuc_script.specs.Commands.{clients_of};
ghost use Rattle.nuc_script.specs.Fitting.{FitBehind};
ghost use Rattle.nuc_sync.specs.Runs.{Breaks, Runs};
ghost use Rattle.nuc_sync.specs.Tasks.{once};

use nuc_base::TreeLike;
use nuc_log::Event;
use nuc_script::Command;
use nuc_sync::sync;
use nuc_world::{Stop, World};
use std::alloc::{AllocError, Global};

/// How many clients a script has, which its first command may tell.
pub(crate) fn clients_of(commands: &[Command]) -> u32
    ensures { result ≡ clients_of commands.now }
{
    match commands.first() {
        Some(Command::Clients(count)) => *count,
        _ => 1,
    }
}

/// Runs the commands, one after the other.
pub(crate) fn run_commands<T: TreeLike + Drop>(
    alloc: Global,
    world: &mut World<T>,
    commands: &[Command],
) -> Result<(), Stop>
    requires fit { FitBehind [] commands.now }
    requires clients { length world.old.now.members ≡ clients_of commands.now }
    ensures ok { OnOk result (Runs world.old (script_tasks commands.now) world.new []) }
    ensures err { IfErr result (λ stop. Breaks world.old (script_tasks commands.now) stop world.new × (stop ≢ Stop.NoClient)) }
{
    for command in commands {
        run_command(alloc, world, command)?;
    }
    Ok(())
}

fn run_command<T: TreeLike + Drop>(
    alloc: Global,
    world: &mut World<T>,
    command: &Command,
) -> Result<(), Stop>
    requires { IsOf (length world.old.now.members) command.now }
    ensures ok { OnOk result (Runs world.old (tasks_of command.now) world.new []) }
    ensures err { IfErr result (λ stop. Breaks world.old (tasks_of command.now) stop world.new × (stop ≢ Stop.NoClient)) }
{
    match command {
        Command::Clients(_) => Ok(()),
        Command::Sync { client, reverse } => sync(alloc, world, *client, *reverse),
        Command::Fail { client, call } => world.fail_at(*client, *call),
        _ => take_step(alloc, world, command),
    }
}

/// Takes the step of a command that asks for one.
fn take_step<T: TreeLike + Drop>(
    alloc: Global,
    world: &mut World<T>,
    command: &Command,
) -> Result<(), Stop>
    requires event { IsEvent command.now }
    requires client { IsOf (length world.old.now.members) command.now }
    ensures ok { OnOk result (Runs world.old (tasks_of command.now) world.new []) }
    ensures err { IfErr result (λ stop. Breaks world.old (tasks_of command.now) stop world.new × (stop ≢ Stop.NoClient)) }
{
    match event_of(alloc, command) {
        Ok(event) => world.step(alloc, event),
        Err(_) => Err(Stop::Memory),
    }
}

/// The event of a command that asks for one step.
fn event_of(alloc: Global, command: &Command) -> Result<Event, AllocError>
    requires { IsEvent command.now }
    ensures { IfOk result (λ event. tasks_of command.now ≡ once event ∷ []) }
{
    Ok(match command {
        Command::User { client, edit } => Event::User {
            client: *client,
            edit: edit.copy(alloc)?,
        },
        Command::Web(edit) => Event::Web {
            edit: edit.copy(alloc)?,
        },
        Command::List(client) => Event::List { client: *client },
        Command::Scan(client) => Event::Scan { client: *client },
        Command::Watch(client) => Event::Watch { client: *client },
        Command::Pull(client) => Event::Pull { client: *client },
        Command::Plan(client) => Event::Plan { client: *client },
        Command::Restart(client) => Event::Restart { client: *client },
        Command::Start { client, number } => Event::Start {
            client: *client,
            number: *number,
        },
        Command::Take { client, number } => Event::Take {
            client: *client,
            number: *number,
        },
        Command::Done { client, number } => Event::Done {
            client: *client,
            number: *number,
        },
        Command::Clients(_) | Command::Sync { .. } | Command::Fail { .. } => unreachable!(),
    })
}
