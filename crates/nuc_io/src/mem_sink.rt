ghost use Rattle.std.specs.Prelude.{◌≡◌, ◌<◌, ◌+◌, [], ◌∷◌, ◌++◌, IsTrue, length, OnOk, OnErr};
ghost use Rattle.nuc_io.specs.Calls.{is_to_fail, after_call};
ghost use Rattle.nuc_io.specs.Causes.{HasCause};
ghost use Rattle.nuc_io.specs.Writing.{Writes, is_failed};

use crate::calls::Calls;
use crate::{Sink, Wrote};
use std::alloc::{AllocError, Global};
use std::marker::Model;

/// A sink in memory, which tells what was written. Want of memory for it is a fault.
#[derive(Debug, Drop)]
pub struct MemSink {
    bytes: Vec<u8>,
    calls: Calls,
}

impl Model for MemSink {
    ghost use Rattle.nuc_io.specs.Memory.{SinkData};

    ghost Value = { SinkData };

    ghost view = { λ s. record { held = s.bytes.items; calls = s.calls } };
}

impl MemSink {
    /// An empty sink, none of whose calls fails.
    pub fn new(alloc: Global) -> MemSink
        ensures { result ≡ record { held = []; calls = record { made = 0; settled = 0; failing = []; faults = 0 } } }
    {
        MemSink {
            bytes: Vec::new(alloc),
            calls: Calls::new(alloc),
        }
    }

    /// The bytes that were written.
    pub fn bytes(&self) -> &[u8]
        ensures { result.now ≡ self.now.held }
    {
        &self.bytes
    }

    /// Lets the k-th write from now on fail, k from 1. A number of a call that would pass the end of `u64` is want of memory.
    pub fn fail_at(&mut self, k: u64) -> Result<(), AllocError>
        requires { 0 < k }
        ensures ok { OnOk result (self.new ≡ record self.old {
          calls = record self.old.calls { failing = self.old.calls.failing ++ (self.old.calls.made + k) ∷ [] };
        }) }
        ensures err { OnErr result (self.new ≡ self.old) }
    {
        self.calls.fail_at(k)
    }
}

impl Sink for MemSink {
    ghost use Rattle.std.specs.Prelude.{Some};

    ghost held = { λ s. Some s.held };

    ghost faults = { λ s. s.calls.faults };

    fn write(&mut self, bytes: &[u8]) -> Wrote
        requires { 0 < length bytes.now }
        ensures bytes { Writes (Some self.old.held) result bytes.now (Some self.new.held) }
        ensures cause { HasCause self.old.calls.faults self.new.calls.faults (result ≡ Wrote.Failed) }
        ensures fails { IsTrue (is_to_fail self.old.calls) → result ≡ Wrote.Failed }
        ensures calls { self.new.calls ≡ after_call self.old.calls (is_failed result) }
    {
        let fails = self.calls.begin();
        if fails || self.bytes.extend_from_slice(bytes).is_err() {
            self.calls.count_fault();
            return Wrote::Failed;
        }
        Wrote::Some(bytes.len() as u64)
    }
}
