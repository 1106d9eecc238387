ghost use Rattle.std.specs.Prelude.{◌≡◌, IfOk, option_copied};
ghost use Rattle.nuc_sync.specs.Asked as spec;
ghost use Rattle.nuc_sync.specs.Tasks as tasks;

use nuc_class::{Effect, Op};
use nuc_log::{Reply, StartReply};
use nuc_step::{DoneReply, Planned};
use std::alloc::{AllocError, Global};

/// What a plan asks for.
#[derive(Drop)]
pub(crate) enum Asked {
    /// Nothing more.
    Nothing,
    /// The next plan: what it gave has taken place.
    Plan,
    /// To carry out the operations of these numbers, in this order.
    Operations(Vec<u64>),
}

/// Whether a step has pulled an entry.
pub(crate) fn has_pulled(reply: Option<&Reply>) -> bool
    ensures { result ≡ spec.has_pulled (option_copied reply.entry) }
{
    match reply {
        Some(Reply::Pulled { entries, .. }) => *entries != 0,
        _ => false,
    }
}

/// Whether a step has begun an operation that is to be taken.
pub(crate) fn has_begun(reply: Option<&Reply>) -> bool
    ensures { result ≡ spec.has_begun (option_copied reply.entry) }
{
    match reply {
        Some(Reply::Started(StartReply::Ok { .. })) => true,
        _ => false,
    }
}

/// Whether a step has applied an operation.
pub(crate) fn has_applied(reply: Option<&Reply>) -> bool
    ensures { result ≡ spec.has_applied (option_copied reply.entry) }
{
    match reply {
        Some(Reply::Done(DoneReply::Applied)) => true,
        _ => false,
    }
}

/// What a reply asks for, where it is that to a plan. It fails for want of memory.
pub(crate) fn asked_by(
    alloc: Global,
    reply: Option<&Reply>,
    backwards: bool,
) -> Result<Asked, AllocError>
    ensures { IfOk result (λ asked. spec.Asks backwards (option_copied reply.entry) asked) }
{
    match reply {
        Some(Reply::Plan(answer)) => asked_by_plan(alloc, answer, backwards),
        _ => Ok(Asked::Nothing),
    }
}

fn asked_by_plan(alloc: Global, answer: &Planned, backwards: bool) -> Result<Asked, AllocError>
    ensures { IfOk result (λ asked. spec.AsksPlan backwards answer.now asked) }
{
    match answer {
        Planned::Empty | Planned::Busy(_) => Ok(Asked::Nothing),
        Planned::Booked(_) => Ok(Asked::Plan),
        Planned::Mend(op) => asked_by_mend(alloc, op),
        Planned::Batch(ops) => {
            let numbers = in_order(alloc, ops.as_slice(), backwards)?;
            Ok(Asked::Operations(numbers))
        }
    }
}

/// A mend that has no effect has taken place already.
fn asked_by_mend(alloc: Global, op: &Op) -> Result<Asked, AllocError>
    ensures { IfOk result (λ asked. spec.AsksMend op.now op.now.effect asked) }
{
    match op.effect {
        Effect::Nothing => Ok(Asked::Plan),
        Effect::Disk | Effect::Commit => Ok(Asked::Operations(vec![in alloc; op.number]?)),
    }
}

/// The numbers of operations, in their order or from the last to the first.
fn in_order(alloc: Global, ops: &[Op], backwards: bool) -> Result<Vec<u64>, AllocError>
    ensures { IfOk result (λ numbers. numbers.items ≡ tasks.in_order backwards ops.now) }
{
    let mut numbers = numbers_of(alloc, ops)?;
    if backwards {
        numbers.reverse();
        return Ok(numbers);
    }
    Ok(numbers)
}

fn numbers_of(alloc: Global, ops: &[Op]) -> Result<Vec<u64>, AllocError>
    ensures { IfOk result (λ numbers. numbers.items ≡ tasks.numbers_of ops.now) }
{
    let mut numbers = Vec::with_capacity(alloc, ops.len())?;
    for op in ops {
        numbers.push(op.number)?;
    }
    Ok(numbers)
}
