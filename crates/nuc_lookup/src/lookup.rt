ghost use Rattle.std.specs.Prelude.{◌≡◌, ◌+◌, ◌<◌, ◌≤◌, length, IsOk, MatchResult, OnOk};
ghost use Rattle.std.specs.FinMap as map;
ghost use Rattle.nuc_lookup.specs.Rows.{AreApart, IsRising, IsFound, IsGap, numbers_in, without};
ghost use Rattle.nuc_lookup.specs.Undo.{led};

use crate::Row;
use std::alloc::{AllocError, Global};
use std::marker::Model;

/// What numbers lead to: rows in rising order of the number, found by halving.
///
/// Looking up takes time in the logarithm of the number of rows. A row that is added or removed moves those behind it; one
/// that comes last, as that of a new number mostly does, moves none.
#[derive(Debug, Drop)]
pub struct Lookup {
    rows: Vec<Row>,
}

impl Model for Lookup {
    ghost use Rattle.std.specs.Prelude.{vec_capacity};
    ghost use Rattle.nuc_lookup.specs.Lookup.{LookupState, lookup_code};
    ghost use Rattle.nuc_lookup.specs.Rows.{numbers_of, IsRising};

    ghost Value = { LookupState };

    ghost coded = { lookup_code };

    ghost view = { λ l. record { numbers = numbers_of l.rows.items; room = vec_capacity l.rows } };

    ghost invariant = { λ l. IsRising l.rows.items };
}

impl Lookup {
    /// No rows, in no memory.
    pub fn new(alloc: Global) -> Lookup
        ensures { result.numbers ≡ map.empty }
    {
        Lookup {
            rows: Vec::new(alloc),
        }
    }

    /// What these rows say, which may come in any order. It takes no memory.
    pub fn of(mut rows: Vec<Row>) -> Lookup
        requires { AreApart rows.items }
        ensures numbers { result.numbers ≡ numbers_in rows.items }
        ensures room { map.len result.numbers ≤ result.room }
    {
        rows.sort_unstable_by_key(|row| row.from);
        Lookup { rows }
    }

    /// Where a number leads.
    pub fn get(&self, from: u64) -> Option<u64>
        ensures { result ≡ map.get self.now.numbers from }
    {
        match position(&self.rows, from) {
            Ok(at) => Some(self.rows[at].to),
            Err(_) => None,
        }
    }

    /// How many numbers lead somewhere.
    pub fn len(&self) -> usize
        ensures { result ≡ map.len self.now.numbers }
    {
        self.rows.len()
    }

    /// How many rows there can be without more memory.
    pub fn room(&self) -> usize
        ensures { result ≡ self.now.room }
    {
        self.rows.capacity()
    }

    /// Makes room for that many more rows than there was room for. A number too great to be had is want of memory.
    pub fn grow(&mut self, by: usize) -> Result<(), AllocError>
        ensures numbers { self.new.numbers ≡ self.old.numbers }
        ensures room { self.old.room ≤ self.new.room }
        ensures ok { OnOk result (self.old.room + by ≤ self.new.room) }
        ensures succeeds { by ≡ 0 → IsOk result }
    {
        let unused = self.rows.capacity() - self.rows.len();
        self.rows.reserve(unused.checked_add(by).ok_or(AllocError)?)
    }

    /// Lets a number lead to another, and says where it led before. It takes no memory.
    pub fn put(&mut self, from: u64, to: u64) -> Option<u64>
        requires { map.len (map.insert self.old.numbers from to) ≤ self.old.room }
        ensures numbers { self.new.numbers ≡ map.insert self.old.numbers from to }
        ensures before { result ≡ map.get self.old.numbers from }
        ensures room { self.new.room ≡ self.old.room }
    {
        let row = Row { from, to };
        match position(&self.rows, from) {
            Ok(at) => {
                let before = self.rows[at].to;
                self.rows[at] = row;
                Some(before)
            }
            Err(at) => {
                self.rows.insert(at, row).unwrap();
                None
            }
        }
    }

    /// Lets a number lead nowhere, and says where it led before. It takes no memory.
    pub fn cut(&mut self, from: u64) -> Option<u64>
        ensures numbers { self.new.numbers ≡ map.remove self.old.numbers from }
        ensures before { result ≡ map.get self.old.numbers from }
        ensures room { self.new.room ≡ self.old.room }
    {
        match position(&self.rows, from) {
            Ok(at) => Some(self.rows.remove(at).to),
            Err(_) => None,
        }
    }

    /// Lets a number lead to another, or nowhere, and says where it led before. It takes no memory.
    pub fn set(&mut self, from: u64, to: Option<u64>) -> Option<u64>
        requires { map.len (led self.old.numbers from to) ≤ self.old.room }
        ensures numbers { self.new.numbers ≡ led self.old.numbers from to }
        ensures before { result ≡ map.get self.old.numbers from }
        ensures room { self.new.room ≡ self.old.room }
    {
        match to {
            Some(to) => self.put(from, to),
            None => self.cut(from),
        }
    }

    /// Lets a number lead nowhere, where there is one. It takes no memory.
    pub fn cut_any(&mut self, from: Option<u64>)
        ensures numbers { self.new.numbers ≡ without self.old.numbers from }
        ensures room { self.new.room ≡ self.old.room }
    {
        if let Some(from) = from {
            self.cut(from);
        }
    }
}

/// Where the row of a number stands, or else where it would. A binary search.
fn position(rows: &[Row], from: u64) -> Result<usize, usize>
    requires { IsRising rows.now }
    ensures place { MatchResult result (IsFound from rows.now) (IsGap from rows.now) }
    ensures bound { MatchResult result (λ i. i < length rows.now) (λ i. i ≤ length rows.now) }
{
    rows.binary_search_by_key(&from, |row| row.from)
}
