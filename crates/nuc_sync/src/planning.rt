ghost use Rattle.std.specs.Prelude.{◌≡◌, ◌||◌, [], ◌∷◌, ℕ, Bool, List, false, IfErr, IfOk, OnOk};
ghost use Rattle.nuc_sync.specs.Asked.{Advances, asked_tasks};
ghost use Rattle.nuc_sync.specs.Runs.{Breaks, Runs};
ghost use Rattle.nuc_sync.specs.Tasks.{begins, ends, next, plans};

use crate::last::last_reply;
use crate::replies::{Asked, asked_by, has_applied, has_begun};
use nuc_base::TreeLike;
use nuc_log::Event;
use nuc_world::{Stop, World};
use std::alloc::Global;

/// Carries out plans until one is empty or nothing of one was applied. It ends since the log has a limit.
pub(crate) fn carry_out_plans<T: TreeLike + Drop>(
    alloc: Global,
    world: &mut World<T>,
    client: u32,
    backwards: bool,
) -> Result<(), Stop>
    ensures ok { OnOk result (Runs world.old (plans client backwards ∷ []) world.new []) }
    ensures err { IfErr result (λ stop. Breaks world.old (plans client backwards ∷ []) stop world.new) }
{
    'plans: loop {
        if !carry_out_plan(alloc, world, client, backwards)? {
            return Ok(());
        }
    }
}

/// Asks for a plan, and carries it out. Says whether the next one is to be asked for.
fn carry_out_plan<T: TreeLike + Drop>(
    alloc: Global,
    world: &mut World<T>,
    client: u32,
    backwards: bool,
) -> Result<bool, Stop>
    ensures ok { IfOk result (λ again. Runs world.old (plans client backwards ∷ []) world.new (next client backwards [] again)) }
    ensures longer { OnOk result (Advances world.old world.new) }
    ensures err { IfErr result (λ stop. Breaks world.old (plans client backwards ∷ []) stop world.new) }
{
    world.step(alloc, Event::Plan { client })?;
    match asked_by(alloc, last_reply(world), backwards) {
        Ok(asked) => follow(alloc, world, client, backwards, asked),
        Err(_) => Err(Stop::Memory),
    }
}

/// Does what a plan asks for. Says whether the next one is to be asked for.
fn follow<T: TreeLike + Drop>(
    alloc: Global,
    world: &mut World<T>,
    client: u32,
    backwards: bool,
    asked: Asked,
) -> Result<bool, Stop>
    ensures ok { IfOk result (λ again. Runs world.old (asked_tasks client backwards asked) world.new (next client backwards [] again)) }
    ensures err { IfErr result (λ stop. Breaks world.old (asked_tasks client backwards asked) stop world.new) }
{
    match asked {
        Asked::Nothing => Ok(false),
        Asked::Plan => Ok(true),
        Asked::Operations(numbers) => {
            carry_out(alloc, world, client, backwards, numbers.as_slice())
        }
    }
}

/// Carries out operations in flight, one after the other. Says whether one was applied.
fn carry_out<T: TreeLike + Drop>(
    alloc: Global,
    world: &mut World<T>,
    client: u32,
    backwards: bool,
    numbers: &[u64],
) -> Result<bool, Stop>
    ensures ok { IfOk result (λ applied. Runs world.old (next client backwards numbers.now false) world.new (next client backwards [] applied)) }
    ensures err { IfErr result (λ stop. Breaks world.old (next client backwards numbers.now false) stop world.new) }
{
    // The loop's tasks speak of the order; its body doesn't read it.
    let _backwards = backwards;
    let mut applied = false;
    for number in numbers {
        applied = carry_out_one(alloc, world, client, *number, applied)?;
    }
    Ok(applied)
}

/// Carries out an operation in flight. Says whether it was applied, or one before it was.
fn carry_out_one<T: TreeLike + Drop>(
    alloc: Global,
    world: &mut World<T>,
    client: u32,
    number: u64,
    applied: bool,
) -> Result<bool, Stop>
    ensures ok { (backwards : Bool) (left : List ℕ) → IfOk result (λ now. Runs world.old (begins client backwards number left applied ∷ []) world.new (next client backwards left now)) }
    ensures err { (backwards : Bool) (left : List ℕ) → IfErr result (λ stop. Breaks world.old (begins client backwards number left applied ∷ []) stop world.new) }
{
    begin(alloc, world, client, number)?;
    world.step(alloc, Event::Done { client, number })?;
    if has_applied(last_reply(world)) {
        return Ok(true);
    }
    Ok(applied)
}

/// Begins an operation, and takes it where it has begun.
fn begin<T: TreeLike + Drop>(
    alloc: Global,
    world: &mut World<T>,
    client: u32,
    number: u64,
) -> Result<(), Stop>
    ensures ok { (backwards : Bool) (left : List ℕ) (applied : Bool) → OnOk result (Runs world.old (begins client backwards number left applied ∷ []) world.new (ends client backwards number left applied ∷ [])) }
    ensures err { (backwards : Bool) (left : List ℕ) (applied : Bool) → IfErr result (λ stop. Breaks world.old (begins client backwards number left applied ∷ []) stop world.new) }
{
    world.step(alloc, Event::Start { client, number })?;
    if has_begun(last_reply(world)) {
        return world.step(alloc, Event::Take { client, number });
    }
    Ok(())
}
