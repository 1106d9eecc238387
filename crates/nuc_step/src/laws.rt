ghost use Rattle.nuc_step.specs.Holdings.{StepsBringNothingElse};
ghost use Rattle.nuc_step.specs.Laws.{DoneWritesOnce, MoveKeepsKey, OneEnd, PlansKeepClients, ScansKeep, StayingKeepsKey, StepsKeepClients, WatchesKeep};

/// Two Dones of one operation, of one client and with the same recorded, have the same reply, and the same client and
/// recorded come of them.
pub fn a_done_ends_in_one_way()
    ensures { OneEnd }
{}

/// A Done changes at most one identity of Local and of Synced, the operation's; a split changes two of Local. Remote
/// takes entries that it has heard of, or nothing.
pub fn a_done_writes_one_identity()
    ensures { DoneWritesOnce }
{}

/// What is in the folder before a Done and after it keeps its key.
pub fn what_stays_keeps_its_key()
    ensures { StayingKeepsKey }
{}

/// An operation that moves what is in the folder leaves its key as it was, so it stays the same file.
pub fn a_move_keeps_its_identity()
    ensures { MoveKeepsKey }
{}

/// Whatever step a client takes, it is a client after it: its trees are well formed, its keys follow Local, and what is
/// in flight may be there.
pub fn each_step_keeps_a_client()
    ensures { StepsKeepClients }
{}

/// A step brings a client only what comes with it. So kinds, versions and identities that a client has never had come
/// with the operations that fly, the page that is pulled or the news of a commit, or not at all.
pub fn a_step_brings_nothing_else()
    ensures { StepsBringNothingElse }
{}

/// After a plan a client is a client, with three trees that fit together and each identity in them below the next. So
/// whoever only plans and adds to the trees what fits may plan again.
pub fn a_plan_keeps_a_client()
    ensures { PlansKeepClients }
{}

/// After a watched change the trees fit together, and identities and versions are below the next ones, so that a change may
/// be watched again, or the folder scanned.
pub fn a_watch_keeps_what_it_needs()
    ensures { WatchesKeep }
{}

/// So they are after a scan.
pub fn a_scan_keeps_what_it_needs()
    ensures { ScansKeep }
{}
