ghost use Rattle.std.specs.Prelude.{◌≡◌, ◌<◌, ◌≤◌, ◌+◌, ◌∷◌, ◌++◌, [], false, IfErr, IfOk, MatchBool, OnErr, OnOk};
ghost use Rattle.nuc_log.specs.declared.log.LogEntry.TheVariants as entry;
ghost use Rattle.nuc_world.specs.Units.{Refuses, units_by, units_of};

use crate::stop::{MOST_UNITS, Stop};
use nuc_log::{Event, Log, LogEntry, Reply};
use std::alloc::{AllocError, Global};
use std::marker::Model;

/// A log that counts its units, and has a limit of them.
#[derive(Drop)]
pub(crate) struct Book {
    log: Log,
    units: u64,
}

impl Model for Book {
    ghost use Rattle.std.specs.Prelude.{List, ◌≡◌, ◌≤◌};
    ghost use Rattle.nuc_log.specs.declared.log.LogEntry.{LogEntry};

    ghost Value = { List LogEntry };

    ghost use Rattle.nuc_world.specs.Units.{units_of};
    ghost use Rattle.nuc_world.specs.declared.stop.TheConstants.{MOST_UNITS};

    ghost view = { λ b. b.log };

    ghost invariant = { λ b. (b.units ≡ units_of b.log) × (b.units ≤ MOST_UNITS) };
}

impl Book {
    /// The log of a world of so many clients that is opened.
    pub(crate) fn opened(alloc: Global, clients: u32) -> Result<Book, AllocError>
        ensures { IfOk result (λ book. book ≡ entry.Opened clients false ∷ []) }
    {
        let mut log = Log::new(alloc);
        log.push(LogEntry::Opened {
            clients,
            kept: false,
        })?;
        Ok(Book { log, units: 1 })
    }

    pub(crate) fn log(&self) -> &Log
        ensures log { result.now ≡ self.now }
        ensures few { units_of self.now ≤ MOST_UNITS }
    {
        let _ = &self.units;
        &self.log
    }

    /// Whether there is no room for an entry.
    pub(crate) fn is_full(&self) -> bool
        ensures { MatchBool result (MOST_UNITS < units_of self.now + 1) (units_of self.now + 1 ≤ MOST_UNITS) }
    {
        self.units >= MOST_UNITS
    }

    /// Enters a step.
    #[tactic(auto, using(crate::proofs::Counted::units_more))]
    pub(crate) fn enter(&mut self, event: Event, reply: Reply) -> Result<(), Stop>
        ensures ok { OnOk result (self.new ≡ self.old ++ entry.Stepped event reply ∷ []) }
        ensures err { OnErr result (self.new ≡ self.old) }
        ensures why { IfErr result (λ why. Refuses (units_of self.old) reply why) }
    {
        let cost = units_by(&reply);
        if cost > MOST_UNITS - self.units {
            return Err(Stop::LogFull);
        }
        match self.log.push(LogEntry::Stepped { event, reply }) {
            Ok(()) => {
                self.units += cost;
                Ok(())
            }
            Err(_) => Err(Stop::Memory),
        }
    }

    pub(crate) fn into_log(self) -> Log
        ensures { result ≡ self }
    {
        self.log
    }
}

/// How many units a step takes that is answered so.
fn units_by(reply: &Reply) -> u64
    ensures { result ≡ units_by reply.now }
{
    match reply {
        Reply::Listed { items, .. } => 1 + items.as_slice().len() as u64,
        _ => 1,
    }
}
