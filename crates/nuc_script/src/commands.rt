ghost use Rattle.std.specs.Prelude.{◌≡◌, map};
ghost use Rattle.nuc_script.specs.Meaning.{Gives};
ghost use Rattle.nuc_script.specs.Commands.{clients_command, clients_of, command_of, counted, fail_command, forward_command, operation_command, operation_of, reverse_command, step_command, step_of, sync_command, user_command, web_command};

use crate::arguments::{client_word, number_word, order_word};
use crate::edits::{edit_of, web_edit};
use crate::fault::Stop;
use crate::verb::{EditVerb, OperationVerb, StepVerb, Verb};
use crate::words::{cut_word, one_word, two_words};
use crate::{Command, LineFault};
use std::alloc::Global;

/// The most clients of a script.
const MOST_CLIENTS: u64 = 16;

/// The greatest number of an operation.
const MOST_NUMBER: u64 = 1 << 62;

/// The last call on a folder that can be made to fail.
const MOST_CALLS: u64 = 1_000_000;

/// How many clients a script has that begins with these commands.
pub(crate) fn clients_of(commands: &[Command]) -> u32
    ensures { result ≡ clients_of commands.now }
{
    match commands.first() {
        Some(Command::Clients(count)) => *count,
        _ => 1,
    }
}

/// The command that the words behind the first give.
#[tactic(auto, unfolding(crate::specs::Commands::command_of))]
pub(crate) fn command_of(
    alloc: Global,
    verb: Option<Verb>,
    clients: u32,
    begun: bool,
    words: &[&[u8]],
) -> Result<Command, Stop>
    ensures { Gives (λ command. command) result (command_of verb clients begun (map (λ word. word.now) words.now)) }
{
    let Some(verb) = verb else {
        return Err(Stop::Fault(LineFault::Word));
    };
    match verb {
        Verb::Clients => clients_command(alloc, begun, words),
        Verb::Web => web_command(alloc, words),
        Verb::Edit(verb) => user_command(alloc, clients, verb, words),
        Verb::Step(verb) => step_command(alloc, clients, verb, words),
        Verb::Operation(verb) => operation_command(alloc, clients, verb, words),
        Verb::Sync => sync_command(alloc, clients, words),
        Verb::Fail => fail_command(alloc, clients, words),
    }
}

/// `clients N`.
#[tactic(auto, unfolding(crate::specs::Commands::clients_command))]
fn clients_command(alloc: Global, begun: bool, words: &[&[u8]]) -> Result<Command, Stop>
    ensures { Gives (λ command. command) result (clients_command begun (map (λ word. word.now) words.now)) }
{
    let word = one_word(words)?;
    if begun {
        return Err(Stop::Fault(LineFault::Late));
    }
    let count = number_word(alloc, MOST_CLIENTS, word)?;
    Ok(Command::Clients(count as u32))
}

/// A user's edit: its client, and the edit.
#[tactic(auto, unfolding(crate::specs::Commands::user_command))]
fn user_command(
    alloc: Global,
    clients: u32,
    verb: EditVerb,
    words: &[&[u8]],
) -> Result<Command, Stop>
    ensures { Gives (λ command. command) result (user_command clients verb (map (λ word. word.now) words.now)) }
{
    let (client, others) = cut_word(words)?;
    if others.len() != verb.takes() {
        return Err(Stop::Fault(LineFault::Count));
    }
    let client = client_word(alloc, clients, client)?;
    let edit = edit_of(alloc, verb, others)?;
    Ok(Command::User { client, edit })
}

#[tactic(auto, unfolding(crate::specs::Commands::web_command))]
fn web_command(alloc: Global, words: &[&[u8]]) -> Result<Command, Stop>
    ensures { Gives (λ command. command) result (web_command (map (λ word. word.now) words.now)) }
{
    let edit = web_edit(alloc, words)?;
    Ok(Command::Web(edit))
}

/// A step of a client.
#[tactic(auto, unfolding(crate::specs::Commands::step_command))]
fn step_command(
    alloc: Global,
    clients: u32,
    verb: StepVerb,
    words: &[&[u8]],
) -> Result<Command, Stop>
    ensures { Gives (λ command. command) result (step_command clients verb (map (λ word. word.now) words.now)) }
{
    let word = one_word(words)?;
    let client = client_word(alloc, clients, word)?;
    Ok(step_of(verb, client))
}

fn step_of(verb: StepVerb, client: u32) -> Command
    ensures { result ≡ step_of verb client }
{
    match verb {
        StepVerb::List => Command::List(client),
        StepVerb::Scan => Command::Scan(client),
        StepVerb::Watch => Command::Watch(client),
        StepVerb::Pull => Command::Pull(client),
        StepVerb::Plan => Command::Plan(client),
        StepVerb::Restart => Command::Restart(client),
    }
}

/// A step of an operation: its client and its number.
#[tactic(auto, unfolding(crate::specs::Commands::operation_command))]
fn operation_command(
    alloc: Global,
    clients: u32,
    verb: OperationVerb,
    words: &[&[u8]],
) -> Result<Command, Stop>
    ensures { Gives (λ command. command) result (operation_command clients verb (map (λ word. word.now) words.now)) }
{
    let (client, number) = two_words(words)?;
    let client = client_word(alloc, clients, client)?;
    let number = number_word(alloc, MOST_NUMBER, number)?;
    Ok(operation_of(verb, client, number))
}

fn operation_of(verb: OperationVerb, client: u32, number: u64) -> Command
    ensures { result ≡ operation_of verb client number }
{
    match verb {
        OperationVerb::Start => Command::Start { client, number },
        OperationVerb::Take => Command::Take { client, number },
        OperationVerb::Done => Command::Done { client, number },
    }
}

fn sync_command(alloc: Global, clients: u32, words: &[&[u8]]) -> Result<Command, Stop>
    ensures { Gives (λ command. command) result (sync_command clients (map (λ word. word.now) words.now)) }
{
    if words.len() == 2 {
        reverse_command(alloc, clients, words)
    } else {
        forward_command(alloc, clients, words)
    }
}

/// `sync C`.
#[tactic(auto, unfolding(crate::specs::Commands::forward_command))]
fn forward_command(alloc: Global, clients: u32, words: &[&[u8]]) -> Result<Command, Stop>
    ensures { Gives (λ command. command) result (forward_command clients (map (λ word. word.now) words.now)) }
{
    let word = one_word(words)?;
    let client = client_word(alloc, clients, word)?;
    Ok(Command::Sync {
        client,
        reverse: false,
    })
}

/// `sync C reverse`.
#[tactic(auto, unfolding(crate::specs::Commands::reverse_command))]
fn reverse_command(alloc: Global, clients: u32, words: &[&[u8]]) -> Result<Command, Stop>
    ensures { Gives (λ command. command) result (reverse_command clients (map (λ word. word.now) words.now)) }
{
    let (client, order) = two_words(words)?;
    let client = client_word(alloc, clients, client)?;
    let reverse = order_word(alloc, order)?;
    Ok(Command::Sync { client, reverse })
}

/// `fail C K`.
#[tactic(auto, unfolding(crate::specs::Commands::fail_command))]
fn fail_command(alloc: Global, clients: u32, words: &[&[u8]]) -> Result<Command, Stop>
    ensures { Gives (λ command. command) result (fail_command clients (map (λ word. word.now) words.now)) }
{
    let (client, call) = two_words(words)?;
    let client = client_word(alloc, clients, client)?;
    let call = number_word(alloc, MOST_CALLS, call)?;
    Ok(Command::Fail { client, call })
}
