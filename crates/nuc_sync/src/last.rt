ghost use Rattle.std.specs.Prelude.{◌≡◌, ◌≤◌, option_copied};
ghost use Rattle.nuc_sync.specs.Asked.{IsLastReply, reply_in};
ghost use Rattle.nuc_world.specs.Units.{units_of};
ghost use Rattle.nuc_world.specs.declared.stop.TheConstants.{MOST_UNITS};

use nuc_base::TreeLike;
use nuc_log::{LogEntry, Reply};
use nuc_world::World;

/// How the last step was answered.
pub(crate) fn last_reply<T: TreeLike + Drop>(world: &World<T>) -> Option<&Reply>
    ensures reply { IsLastReply world.now.log (option_copied result) }
    ensures few { units_of world.now.log ≤ MOST_UNITS }
{
    reply_of(world.log().entries().last())
}

fn reply_of(entry: Option<&LogEntry>) -> Option<&Reply>
    ensures { option_copied result ≡ reply_in (option_copied entry.entry) }
{
    match entry {
        Some(LogEntry::Stepped { reply, .. }) => Some(reply),
        _ => None,
    }
}
