ghost use Rattle.nuc_step.specs.Order.{BatchIsReady, MendIsReady, OneClientInEveryOrder, ReadyIsApplied, ReadyStaysReady};

/// The operations of a batch are ready once they fly: each may land, and no two of them meet.
pub fn a_batch_is_ready()
    ensures { BatchIsReady }
{}

/// So is a mend that is carried out in the folder or at the server.
pub fn a_mend_is_ready()
    ensures { MendIsReady }
{}

/// What is ready stays so, whatever is pulled, started, taken or done, in whatever order, until something else changes
/// Local or Synced.
pub fn what_is_ready_stays_ready()
    ensures { ReadyStaysReady }
{}

/// While operations are ready, none of them ends stale.
pub fn what_is_ready_is_applied()
    ensures { ReadyIsApplied }
{}

/// The order in which operations end makes no difference: not to the trees, the cursor, the keys, what is in flight and
/// the counters, and to the adoptions only as to their order.
pub fn one_client_in_every_order()
    ensures { OneClientInEveryOrder }
{}
