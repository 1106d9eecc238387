use nuc_class::Op;
use sqlite_items::Items;

/// What comes next for one client. Its operations aren't numbered yet, and a commit among them has no base yet.
#[derive(Debug, Drop)]
pub enum Plan {
    /// Nothing: the three trees are equal.
    Empty,
    /// A record step: an operation that is due and that the client alone notes, so it is applied at once.
    Booked(Op),
    /// From one to 32 operations that are carried out in the folder and at the server, in whatever order.
    Batch(Items<Op>),
    /// What clears the way, where there are wishes and none of them can be carried out.
    Mend(Op),
}
