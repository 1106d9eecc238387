use nuc_base::NodeId;
use nuc_folder::Key;

/// An identity, and the key that it has.
#[derive(Clone, Copy, Debug, PartialEq, Eq)]
pub struct Binding {
    pub id: NodeId,
    pub key: Key,
}
