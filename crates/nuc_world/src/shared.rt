ghost use Rattle.std.specs.Prelude.{◌≡◌};
ghost use Rattle.nuc_world.specs.Parts.{shared_now, shared_then};
ghost use Rattle.nuc_world.specs.State.{fresh_shared};

use nuc_base::Counters;
use nuc_blocks::Store;
use nuc_edits::Edits;
use nuc_server::LoopServer;
use std::alloc::Global;

/// What all clients share: the server with its blocks, what is recorded, and the counters.
#[derive(Drop)]
pub(crate) struct Shared {
    pub(crate) server: LoopServer,
    pub(crate) store: Store,
    pub(crate) edits: Edits,
    pub(crate) ids: Counters,
    /// The counters at the last `settle`.
    pub(crate) settled_ids: Counters,
}

impl Shared {
    /// With nothing in it, in no memory.
    pub(crate) fn new(alloc: Global) -> Shared
        ensures now { shared_now result ≡ fresh_shared }
        ensures settled { shared_then result ≡ fresh_shared }
    {
        let ids = Counters {
            next_id: 1,
            next_ver: 1,
        };
        Shared {
            server: LoopServer::new(alloc),
            store: Store::new(alloc),
            edits: Edits::new(alloc),
            ids,
            settled_ids: ids,
        }
    }

    /// What there is now is what `back` leads to. It takes no memory.
    pub(crate) fn settle(&mut self)
        ensures now { shared_now self.new ≡ shared_now self.old }
        ensures settled { shared_then self.new ≡ shared_now self.old }
    {
        self.server.settle();
        self.store.settle();
        self.edits.settle();
        self.settled_ids = self.ids;
    }

    /// What there was at the last `settle`, or when this was made, is there again. It takes no memory.
    pub(crate) fn back(&mut self)
        ensures now { shared_now self.new ≡ shared_then self.old }
        ensures settled { shared_then self.new ≡ shared_then self.old }
    {
        self.server.back();
        self.store.back();
        self.edits.back();
        self.ids = self.settled_ids;
    }
}
