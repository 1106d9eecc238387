ghost use Rattle.std.specs.Prelude.{◌≡◌, [], ◌∷◌, ◌++◌, OnOk, OnErr};

use crate::{Event, Reply};
use std::alloc::{AllocError, Global};
use std::marker::Model;

/// One entry of a log.
#[derive(Debug, Drop)]
pub enum LogEntry {
    /// The world was opened with so many clients; `kept` says whether from a kept image.
    Opened { clients: u32, kept: bool },
    /// An event, and how it was answered.
    Stepped { event: Event, reply: Reply },
}

/// What happened in a run, in order.
#[derive(Debug, Drop)]
pub struct Log {
    entries: Vec<LogEntry>,
}

impl Model for Log {
    ghost use Rattle.std.specs.Prelude.{List};
    ghost use Rattle.nuc_log.specs.declared.log.LogEntry.{LogEntry};

    ghost Value = { List LogEntry };

    ghost view = { λ l. l.entries.items };
}

impl Log {
    /// An empty log, in no memory.
    pub fn new(alloc: Global) -> Log
        ensures { result ≡ [] }
    {
        Log {
            entries: Vec::new(alloc),
        }
    }

    /// Adds an entry.
    pub fn push(&mut self, entry: LogEntry) -> Result<(), AllocError>
        ensures ok { OnOk result (self.new ≡ self.old ++ entry ∷ []) }
        ensures err { OnErr result (self.new ≡ self.old) }
    {
        self.entries.push(entry)?;
        Ok(())
    }

    /// The entries, the oldest first.
    pub fn entries(&self) -> &[LogEntry]
        ensures { result.now ≡ self.now }
    {
        self.entries.as_slice()
    }
}
