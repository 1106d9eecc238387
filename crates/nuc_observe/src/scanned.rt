use crate::{Binding, ObservedNode};
use nuc_base::Counters;
use nuc_edits::Edit;

/// What a scan makes of a listing.
#[derive(Debug, Drop)]
pub struct Observed {
    /// All of the new Local, in order of identity.
    pub nodes: Vec<ObservedNode>,
    /// The same nodes in the order of the listing, where a parent comes before its children.
    pub listed: Vec<ObservedNode>,
    /// The keys of these nodes, in order of identity.
    pub keys: Vec<Binding>,
    /// The new edits, in the order in which they are to be entered.
    pub edits: Vec<Edit>,
    pub ids: Counters,
}
