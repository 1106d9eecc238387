ghost use Rattle.std.specs.Prelude.{◌≡◌, ◌≢◌, ◌<◌, [], ◌∷◌, cond, length, IfErr, IfOk, MatchBool, OnOk, Some};
ghost use Rattle.nuc_sync.specs.Asked.{Advances};
ghost use Rattle.nuc_sync.specs.Runs.{Breaks, Runs};
ghost use Rattle.nuc_sync.specs.Tasks.{pulls, restarts, sync_tasks};
ghost use Rattle.nuc_world.specs.State.{MemberState, member_of};

use crate::last::last_reply;
use crate::planning::carry_out_plans;
use crate::replies::has_pulled;
use nuc_base::TreeLike;
use nuc_log::Event;
use nuc_world::{Stop, World};
use std::alloc::Global;

/// Syncs a client: it restarts where operations are in flight, lists and scans its folder, pulls until nothing is new, and
/// carries out its plans until one is empty or nothing of one was applied. Then it is marked. `backwards` carries out the
/// operations of each batch from the last to the first.
///
/// What the world answered stands in its log. A step that isn't taken ends the sync there.
pub fn sync<T: TreeLike + Drop>(
    alloc: Global,
    world: &mut World<T>,
    client: u32,
    backwards: bool,
) -> Result<(), Stop>
    requires { (m : MemberState) × (member_of client world.old.now.members ≡ Some m) }
    ensures ok { OnOk result (Runs world.old (sync_tasks client backwards) world.new []) }
    ensures err { IfErr result (λ stop. Breaks world.old (sync_tasks client backwards) stop world.new) }
    ensures known { IfErr result (λ stop. stop ≢ Stop.NoClient) }
    ensures members { length world.new.now.members ≡ length world.old.now.members }
{
    carry_out(alloc, world, client, backwards)
}

fn carry_out<T: TreeLike + Drop>(
    alloc: Global,
    world: &mut World<T>,
    client: u32,
    backwards: bool,
) -> Result<(), Stop>
    requires { (m : MemberState) × (member_of client world.old.now.members ≡ Some m) }
    ensures ok { OnOk result (Runs world.old (sync_tasks client backwards) world.new []) }
    ensures err { IfErr result (λ stop. Breaks world.old (sync_tasks client backwards) stop world.new) }
{
    restart(alloc, world, client)?;
    world.step(alloc, Event::List { client })?;
    world.step(alloc, Event::Scan { client })?;
    pull_all(alloc, world, client)?;
    carry_out_plans(alloc, world, client, backwards)?;
    world.step(alloc, Event::Mark { client })
}

/// Forgets what is in flight, if something is.
fn restart<T: TreeLike + Drop>(alloc: Global, world: &mut World<T>, client: u32) -> Result<(), Stop>
    requires { (m : MemberState) × (member_of client world.old.now.members ≡ Some m) }
    ensures ok { OnOk result (Runs world.old (restarts client ∷ []) world.new []) }
    ensures err { IfErr result (λ stop. Breaks world.old (restarts client ∷ []) stop world.new) }
{
    if is_flying(world, client) {
        return world.step(alloc, Event::Restart { client });
    }
    Ok(())
}

/// Whether a client has operations in flight.
fn is_flying<T: TreeLike + Drop>(world: &World<T>, client: u32) -> bool
    ensures { (m : MemberState) → member_of client world.now.now.members ≡ Some m → MatchBool result (0 < length m.client.flights) (length m.client.flights ≡ 0) }
{
    match world.member(client) {
        Some(member) => member.client.flying() > 0,
        None => false,
    }
}

/// Pulls until nothing is new. It ends since the log has a limit.
fn pull_all<T: TreeLike + Drop>(
    alloc: Global,
    world: &mut World<T>,
    client: u32,
) -> Result<(), Stop>
    ensures ok { OnOk result (Runs world.old (pulls client ∷ []) world.new []) }
    ensures err { IfErr result (λ stop. Breaks world.old (pulls client ∷ []) stop world.new) }
{
    'pulls: loop {
        if !pull(alloc, world, client)? {
            return Ok(());
        }
    }
}

/// Pulls once. Says whether something was new.
fn pull<T: TreeLike + Drop>(alloc: Global, world: &mut World<T>, client: u32) -> Result<bool, Stop>
    ensures ok { IfOk result (λ again. Runs world.old (pulls client ∷ []) world.new (cond again (pulls client ∷ []) [])) }
    ensures longer { OnOk result (Advances world.old world.new) }
    ensures err { IfErr result (λ stop. Breaks world.old (pulls client ∷ []) stop world.new) }
{
    world.step(alloc, Event::Pull { client })?;
    Ok(has_pulled(last_reply(world)))
}
