ghost use Rattle.std.specs.Prelude.{◌≡◌, ◌≢◌, ◌<◌, ◌+◌, [], ◌∷◌, ◌++◌, true, false, length, MatchBool, IsTrue, OnOk, OnErr};
ghost use Rattle.nuc_io.specs.Calls.{is_to_fail, after_call};
ghost use Rattle.nuc_io.specs.Causes.{HasCause};
ghost use Rattle.nuc_io.specs.Reading.{Reads};

use crate::calls::Calls;
use crate::{Got, Source};
use std::alloc::{AllocError, Global};
use std::marker::Model;

/// A source in memory, which tells what is left.
#[derive(Debug, Drop)]
pub struct MemSource {
    bytes: Vec<u8>,
    /// How many bytes were read.
    at: usize,
    ended: bool,
    calls: Calls,
}

impl Model for MemSource {
    ghost use Rattle.std.specs.Prelude.{◌≤◌, drop, vec_len};
    ghost use Rattle.nuc_io.specs.Memory.{SourceData};

    ghost Value = { SourceData };

    ghost view = { λ s. record { left = drop s.at s.bytes.items; ended = s.ended; calls = s.calls } };

    ghost invariant = { λ s. s.at ≤ vec_len s.bytes };
}

impl MemSource {
    /// A source of these bytes, none of whose calls fails.
    pub fn new(alloc: Global, bytes: Vec<u8>) -> MemSource
        ensures { result ≡ record { left = bytes.items; ended = false; calls = record { made = 0; settled = 0; failing = []; faults = 0 } } }
    {
        MemSource {
            bytes,
            at: 0,
            ended: false,
            calls: Calls::new(alloc),
        }
    }

    /// Lets the k-th read from now on fail, k from 1. A number of a call that would pass the end of `u64` is want of memory.
    pub fn fail_at(&mut self, k: u64) -> Result<(), AllocError>
        requires { 0 < k }
        ensures ok { OnOk result (self.new ≡ record self.old {
          calls = record self.old.calls { failing = self.old.calls.failing ++ (self.old.calls.made + k) ∷ [] };
        }) }
        ensures err { OnErr result (self.new ≡ self.old) }
    {
        self.calls.fail_at(k)
    }
}

impl Source for MemSource {
    ghost use Rattle.std.specs.Prelude.{Some, IsTrue};

    ghost left = { λ s. Some s.left };

    ghost ended = { λ s. IsTrue s.ended };

    ghost faults = { λ s. s.calls.faults };

    fn read(&mut self, buf: &mut [u8]) -> Got
        requires { 0 < length buf.old }
        ensures bytes { Reads (Some self.old.left) result buf.new (Some self.new.left) }
        ensures end { result ≡ Got.End → IsTrue self.new.ended }
        ensures stays_ended { IsTrue self.old.ended → IsTrue self.new.ended }
        ensures cause { HasCause self.old.calls.faults self.new.calls.faults (result ≡ Got.Failed) }
        ensures fails { MatchBool (is_to_fail self.old.calls) (result ≡ Got.Failed) (result ≢ Got.Failed) }
        ensures calls { self.new.calls ≡ after_call self.old.calls (is_to_fail self.old.calls) }
        ensures not_end { result ≢ Got.End → self.new.ended ≡ self.old.ended }
    {
        if self.calls.begin() {
            self.calls.count_fault();
            return Got::Failed;
        }
        let rest = &self.bytes[self.at..];
        if rest.is_empty() {
            self.ended = true;
            return Got::End;
        }
        let count = buf.len().min(rest.len());
        buf[..count].copy_from_slice(&rest[..count]);
        self.at += count;
        Got::Some(count as u64)
    }
}
