ghost use Rattle.nuc_world.specs.Laws.{StepsKeepWorlds};
ghost use Rattle.nuc_world.specs.OneEnd.{StepsHaveOneEnd};

/// Whatever step a world takes, it is a world after it: each client's trees are well formed, Remote is the server's tree at
/// its cursor, an identity has one kind everywhere, and every version that a file has was put.
pub fn each_step_keeps_a_world()
    ensures { StepsKeepWorlds }
{}

/// An event leads from a world to one reply and one world: what a log leads to is decided by its events, the calls that were
/// told to fail, and the listings that failed.
pub fn each_step_has_one_end()
    ensures { StepsHaveOneEnd }
{}
