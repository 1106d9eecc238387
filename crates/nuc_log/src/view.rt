use nuc_base::TreeLike;
use nuc_edits::Edits;
use nuc_folder::MemFolder;
use nuc_server::LoopServer;
use nuc_step::Client;

/// A client with its folder.
#[derive(Drop)]
pub struct Member<T: TreeLike> {
    pub client: Client<T>,
    pub folder: MemFolder,
}

/// What there is to be seen of a world, lent.
#[derive_where(Clone, Copy)]
pub struct View<'a, T: TreeLike> {
    pub server: &'a LoopServer,
    pub edits: &'a Edits,
    /// In order of the clients' numbers, from 1.
    pub members: &'a [Member<T>],
}
