ghost use Rattle.std.specs.Prelude.{◌≡◌, ◌+◌, ◌≤◌, ◌↔◌, [], ◌∷◌, ◌++◌, None, length, IfNone, IfSome, IsOk, IsTrue, OnOk, OnErr};
ghost use Rattle.std.specs.FinMap as map;
ghost use Rattle.nuc_lookup.specs.Rows.{AreApart, numbers_in};
ghost use Rattle.nuc_lookup.specs.Undo.{led};

use crate::undo::Undo;
use crate::{Lookup, Row, Undone};
use std::alloc::{AllocError, Global};
use std::marker::Model;

/// What numbers lead to, with each change noted, so that it can be taken back until `settle`.
///
/// `spare` counts the changes that can be made before memory may be wanted. Looking up takes time in the logarithm of the
/// number of rows. So does a change of a number that has a row, or of one above all others; any other change moves the
/// rows behind it.
#[derive(Debug, Drop)]
pub struct UndoLookup {
    lookup: Lookup,
    undos: Vec<Undo>,
    /// How many rows there were at the last `settle`.
    settled_len: usize,
}

impl Model for UndoLookup {
    ghost use Rattle.std.specs.Prelude.{length, vec_capacity};
    ghost use Rattle.nuc_lookup.specs.State.{IsKept, UndoLookupState, undo_lookup_code, spare_of};
    ghost use Rattle.nuc_lookup.specs.Undo.{past_of};

    ghost Value = { UndoLookupState };

    ghost coded = { undo_lookup_code };

    ghost view = { λ l. record {
      now = l.lookup.numbers;
      past = past_of l.lookup.numbers l.undos.items;
      spare = spare_of l.lookup.room (vec_capacity l.undos) l.settled_len (length l.undos.items);
    } };

    ghost invariant = { λ l. IsKept l.lookup l.undos.items l.settled_len };
}

ghost use Rattle.nuc_lookup.specs.State.{TakenBack, most_of, settled_of};

impl UndoLookup {
    /// No rows, in no memory.
    pub fn new(alloc: Global) -> UndoLookup
        ensures now { result.now ≡ map.empty }
        ensures past { result.past ≡ [] }
    {
        UndoLookup {
            lookup: Lookup::new(alloc),
            undos: Vec::new(alloc),
            settled_len: 0,
        }
    }

    /// What these rows say, which may come in any order, settled. It takes no memory.
    pub fn of(alloc: Global, rows: Vec<Row>) -> UndoLookup
        requires { AreApart rows.items }
        ensures now { result.now ≡ numbers_in rows.items }
        ensures past { result.past ≡ [] }
    {
        let lookup = Lookup::of(rows);
        let settled_len = lookup.len();
        UndoLookup {
            lookup,
            undos: Vec::new(alloc),
            settled_len,
        }
    }

    /// Where a number leads.
    pub fn get(&self, from: u64) -> Option<u64>
        ensures { result ≡ map.get self.now.now from }
    {
        self.lookup.get(from)
    }

    /// How many numbers lead somewhere.
    pub fn len(&self) -> u64
        ensures { result ≡ map.len self.now.now }
    {
        self.lookup.len() as u64
    }

    /// How many numbers led somewhere at the last `settle`.
    pub fn settled_len(&self) -> u64
        ensures { result ≡ map.len (settled_of self.now) }
    {
        self.settled_len as u64
    }

    /// How many changes can be taken back.
    pub fn changes(&self) -> u64
        ensures { result ≡ length self.now.past }
    {
        self.undos.len() as u64
    }

    /// Whether no number leads anywhere.
    pub fn is_empty(&self) -> bool
        ensures { IsTrue result ↔ (map.len self.now.now ≡ 0) }
    {
        self.lookup.len() == 0
    }

    /// Makes room for `n` more changes, so that they need no memory. A number too great to be had is want of memory.
    pub fn reserve(&mut self, n: u64) -> Result<(), AllocError>
        ensures ok { OnOk result (n ≤ self.new.spare) }
        ensures succeeds { n ≤ self.old.spare → IsOk result }
        ensures now { self.new.now ≡ self.old.now }
        ensures past { self.new.past ≡ self.old.past }
        ensures spare { self.old.spare ≤ self.new.spare }
    {
        let n = n as usize;
        let unused = self.lookup.room() - self.settled_len - self.undos.len();
        self.lookup.grow(n.saturating_sub(unused))?;
        self.undos.reserve(n)
    }

    /// Lets a number lead to another from now on. It wants memory only when `spare` is 0.
    pub fn put(&mut self, from: u64, to: u64) -> Result<(), AllocError>
        ensures now { OnOk result (self.new.now ≡ map.insert self.old.now from to) }
        ensures past { OnOk result (self.new.past ≡ self.old.past ++ self.old.now ∷ []) }
        ensures settled { settled_of self.new ≡ settled_of self.old }
        ensures err_now { OnErr result (self.new.now ≡ self.old.now) }
        ensures err_past { OnErr result (self.new.past ≡ self.old.past) }
        ensures memory { OnErr result (self.old.spare ≡ 0) }
        ensures spare { self.old.spare ≤ self.new.spare + 1 }
    {
        self.set(from, Some(to))
    }

    /// Lets a number lead nowhere from now on. Where it leads nowhere nothing changes, but that is noted as a change too.
    /// It wants memory only when `spare` is 0.
    pub fn cut(&mut self, from: u64) -> Result<(), AllocError>
        ensures now { OnOk result (self.new.now ≡ map.remove self.old.now from) }
        ensures absent { map.get self.old.now from ≡ None → self.new.now ≡ self.old.now }
        ensures past { OnOk result (self.new.past ≡ self.old.past ++ self.old.now ∷ []) }
        ensures settled { settled_of self.new ≡ settled_of self.old }
        ensures err_now { OnErr result (self.new.now ≡ self.old.now) }
        ensures err_past { OnErr result (self.new.past ≡ self.old.past) }
        ensures memory { OnErr result (self.old.spare ≡ 0) }
        ensures spare { self.old.spare ≤ self.new.spare + 1 }
    {
        self.set(from, None)
    }

    /// Lets a number lead to another from now on, or nowhere. It wants memory only when `spare` is 0.
    pub fn set(&mut self, from: u64, to: Option<u64>) -> Result<(), AllocError>
        ensures now { OnOk result (self.new.now ≡ led self.old.now from to) }
        ensures past { OnOk result (self.new.past ≡ self.old.past ++ self.old.now ∷ []) }
        ensures settled { settled_of self.new ≡ settled_of self.old }
        ensures err_now { OnErr result (self.new.now ≡ self.old.now) }
        ensures err_past { OnErr result (self.new.past ≡ self.old.past) }
        ensures memory { OnErr result (self.old.spare ≡ 0) }
        ensures spare { self.old.spare ≤ self.new.spare + 1 }
    {
        self.reserve(1)?;
        let before = self.lookup.set(from, to);
        self.undos.push_reserved(Undo { from, before });
        Ok(())
    }

    /// Takes the last change since `settle` back, and says what it was; none where there is no such change. It takes no
    /// memory.
    pub fn undo_last(&mut self) -> Option<Undone>
        ensures last { IfSome result (λ u. TakenBack self.old u self.new) }
        ensures none { IfNone result ((self.old.past ≡ []) × (self.new ≡ self.old)) }
        ensures settled { settled_of self.new ≡ settled_of self.old }
        ensures spare { self.old.spare + length self.old.past ≤ self.new.spare + length self.new.past }
        ensures most { map.len self.new.now ≤ most_of self.new }
    {
        let Undo { from, before } = self.undos.pop()?;
        let after = self.lookup.set(from, before);
        Some(Undone {
            from,
            after,
            before,
        })
    }

    /// Keeps the changes for good: what there is now is what `back` leads to. It takes no memory.
    pub fn settle(&mut self)
        ensures now { self.new.now ≡ self.old.now }
        ensures past { self.new.past ≡ [] }
        ensures spare { self.old.spare ≤ self.new.spare }
    {
        self.undos.clear();
        self.settled_len = self.lookup.len();
    }

    /// Takes back all changes since `settle` was last called, or since the look-up was made. It takes no memory, and as
    /// many changes can be made again without memory.
    pub fn back(&mut self)
        ensures now { self.new.now ≡ settled_of self.old }
        ensures past { self.new.past ≡ [] }
        ensures spare { self.old.spare + length self.old.past ≤ self.new.spare }
    {
        while self.undo_last().is_some() {}
    }
}
