ghost use Rattle.nuc_plan.specs.Laws.{BatchesInEveryOrder, EachIsDue, EmptyWhereEqual, OnePlan, PlansAreSound, RecordStepsStayHere, SomeOperation};

/// Three trees have one plan.
pub fn one_plan()
    ensures { OnePlan }
{}

/// A plan is empty exactly where Remote, Local and Synced are equal.
pub fn empty_where_equal()
    ensures { EmptyWhereEqual }
{}

/// Every other plan has at least one operation.
pub fn some_operation_unless_empty()
    ensures { SomeOperation }
{}

/// A record step is legal in each tree, and doesn't write Remote.
pub fn a_record_step_keeps_remote()
    ensures { RecordStepsStayHere }
{}

/// The operations of a batch, at most 32, are due, and each is carried out in the folder or at the server.
pub fn each_of_a_batch_is_due()
    ensures { EachIsDue }
{}

/// A batch can be carried out in every order, and all orders make the same three trees.
pub fn a_batch_in_every_order()
    ensures { BatchesInEveryOrder }
{}

/// What whoever carries out a plan may rely on, for each of its operations.
pub fn a_plan_is_sound()
    ensures { PlansAreSound }
{}
