ghost use Rattle.std.specs.Prelude.{◌<◌, IfOk};
ghost use Rattle.nuc_base.specs.Kinds.{FitsKind};
ghost use Rattle.nucleus_bench.specs.Service.{IsReady};

use crate::fault::Fault;
use crate::layout::{self, FILES};
use crate::pages;
use nuc_base::{Counters, Node, NodeId, Ver};
use nuc_blocks::Store;
use nuc_edits::{EditKind, Edits};
use nuc_hash::{Content, content_of};
use nuc_server::{Commit, CommitReply, LoopServer, keep_blocks};
use std::alloc::{AllocError, Global};

/// The number of the client that commits.
const CLIENT: u32 = 1;

/// A server with what lies beside it.
#[derive(Drop)]
struct Service {
    server: LoopServer,
    store: Store,
    edits: Edits,
    ids: Counters,
}

/// Commits so many new files, each of eight bytes, and a folder before each fifty, and reads the journal.
pub(crate) fn commits(alloc: Global, count: u64) -> Result<String, Fault> {
    let mut service = Service::new(alloc);
    service.fill(alloc, count)?;
    service.told(alloc)
}

impl Service {
    fn new(alloc: Global) -> Service
        ensures { IsReady result }
    {
        Service {
            server: LoopServer::new(alloc),
            store: Store::new(alloc),
            edits: Edits::new(alloc),
            ids: Counters {
                next_id: 1,
                next_ver: 1,
            },
        }
    }

    fn fill(&mut self, alloc: Global, count: u64) -> Result<(), Fault>
        requires { IsReady self.old }
    {
        let mut parent = NodeId(0);
        for number in 0..count {
            if number % FILES == 0 {
                parent = self.folder(alloc, number / FILES)?;
            }
            self.file(alloc, parent, number)?;
        }
        Ok(())
    }

    fn folder(&mut self, alloc: Global, number: u64) -> Result<NodeId, Fault>
        requires { IsReady self.old }
        ensures { IsReady self.new }
    {
        let node = layout::folder(alloc, number)?;
        let id = NodeId(self.ids.next_id);
        self.commit(alloc, node, None)?;
        Ok(id)
    }

    fn file(&mut self, alloc: Global, parent: NodeId, number: u64) -> Result<(), Fault>
        requires { IsReady self.old }
        ensures { IsReady self.new }
    {
        let bytes = number.to_be_bytes();
        let content = content_of(alloc, &bytes)?;
        keep_blocks(&mut self.store, alloc, &bytes, content.blocks())?;
        let ver = self.record(content.copy(alloc)?)?;
        let node = layout::file(alloc, parent, number, ver)?;
        self.commit(alloc, node, Some(&content))
    }

    /// Records that the next identity gets this content.
    fn record(&mut self, content: Content) -> Result<Ver, AllocError>
        requires { IsReady self.old }
        ensures ready { IsReady self.new }
        ensures version { IfOk result (λ ver. 0 < ver.0) }
    {
        let id = NodeId(self.ids.next_id);
        self.edits
            .enter(&mut self.ids, id, Ver(0), EditKind::Put(content))
    }

    /// Commits a node of the next identity, and settles.
    fn commit(&mut self, alloc: Global, node: Node, content: Option<&Content>) -> Result<(), Fault>
        requires ready { IsReady self.old }
        requires fits { FitsKind node }
        ensures { IsReady self.new }
    {
        let next_id = self.ids.next_id.checked_add(1).ok_or(AllocError)?;
        let commit = Commit {
            id: NodeId(self.ids.next_id),
            base: 0,
            value: Some(node),
        };
        match self
            .server
            .commit(alloc, &commit, content, &self.store, CLIENT)
        {
            CommitReply::Accepted(_) => {}
            CommitReply::Refused(_) => return Err(Fault::Refused),
            CommitReply::Memory => return Err(Fault::Memory(AllocError)),
        }
        self.ids.next_id = next_id;
        self.settle();
        Ok(())
    }

    fn settle(&mut self)
        requires { IsReady self.old }
        ensures { IsReady self.new }
    {
        self.server.settle();
        self.store.settle();
        self.edits.settle();
    }

    fn told(&self, alloc: Global) -> Result<String, Fault> {
        let hash = pages::read(alloc, self.server.journal())?;
        let last = self.server.journal().last();
        let blocks = self.store.len();
        let edits = self.edits.len();
        Ok(format!(in alloc; "commits {last} entries {blocks} blocks {edits} edits {hash}")?)
    }
}
