ghost use Rattle.std.specs.Prelude.{◌≡◌, ◌<◌, ◌≤◌, Some, length, IsSome, MatchResult, OnErr, OnOk};
ghost use Rattle.std.specs.FinMap as map;
ghost use Rattle.nuc_undo.specs.Laid.{given_back};
ghost use Rattle.nuc_undo.specs.Stock.{Has, HasAll, IsAway, IsFound, IsGap, IsRising};

use nuc_base::Node;
use std::alloc::{AllocError, Global};
use std::marker::Model;
use std::mem;

/// Where a node lies by under a number; none where it was taken.
#[derive(Drop)]
pub(crate) struct Slot {
    number: u64,
    node: Option<Node>,
}

/// Nodes that are laid by, each under a number, in slots in rising order of the number, found by halving.
///
/// A node that is taken leaves its slot empty, so that it can be given back without memory. A slot that comes last, as
/// that of a new number mostly does, moves none.
#[derive(Drop)]
pub(crate) struct Stock {
    slots: Vec<Slot>,
    /// Whether any was taken since the last `settle`.
    was_taken: bool,
}

impl Model for Stock {
    ghost use Rattle.nuc_undo.specs.Stock.{IsRising, StockState, laid_of, numbers_of, stock_code};

    ghost Value = { StockState };

    ghost coded = { stock_code };

    ghost view = { λ s. record { laid = laid_of s.slots.items; numbers = numbers_of s.slots.items } };

    ghost invariant = { λ s. IsRising s.slots.items };
}

impl Stock {
    /// Nothing laid by, in no memory.
    pub(crate) fn new(alloc: Global) -> Stock
        ensures { result.laid ≡ map.empty }
    {
        Stock {
            slots: Vec::new(alloc),
            was_taken: false,
        }
    }

    /// Lays a node by under a number, in place of any that lay there.
    pub(crate) fn lay_by(&mut self, number: u64, node: Node) -> Result<(), AllocError>
        ensures ok { OnOk result (self.new.laid ≡ map.insert self.old.laid number node) }
        ensures err { OnErr result (self.new.laid ≡ self.old.laid) }
        ensures numbers { HasAll self.old.numbers self.new.numbers }
    {
        let node = Some(node);
        match position(&self.slots, number) {
            Ok(at) => {
                self.slots[at] = Slot { number, node };
                Ok(())
            }
            Err(at) => {
                self.slots.insert(at, Slot { number, node })?;
                Ok(())
            }
        }
    }

    /// Takes the node that is laid by under this number.
    pub(crate) fn take(&mut self, number: u64) -> Node
        requires { IsSome (map.get self.old.laid number) }
        ensures node { map.get self.old.laid number ≡ Some result }
        ensures laid { self.new.laid ≡ map.remove self.old.laid number }
        ensures numbers { self.new.numbers ≡ self.old.numbers }
        ensures slot { Has self.new.numbers number }
    {
        self.was_taken = true;
        let Ok(at) = position(&self.slots, number) else {
            unreachable!()
        };
        let taken = mem::replace(&mut self.slots[at], Slot { number, node: None });
        taken.node.unwrap()
    }

    /// Lays a node by again under the number that it was taken from, if from any.
    pub(crate) fn give_back(&mut self, number: Option<u64>, node: Option<Node>)
        requires { IsAway self.old number node }
        ensures laid { self.new.laid ≡ given_back self.old.laid number node }
        ensures numbers { self.new.numbers ≡ self.old.numbers }
    {
        let (Some(number), Some(node)) = (number, node) else {
            return;
        };
        let Ok(at) = position(&self.slots, number) else {
            unreachable!()
        };
        let node = Some(node);
        self.slots[at] = Slot { number, node };
    }

    /// Drops the empty slots: what was taken is not given back.
    pub(crate) fn settle(&mut self)
        ensures { self.new.laid ≡ self.old.laid }
    {
        if !self.was_taken {
            return;
        }
        self.slots.retain(|slot| slot.node.is_some());
        self.was_taken = false;
    }

    /// Nothing is laid by any more, nor can be given back.
    pub(crate) fn clear(&mut self)
        ensures { self.new.laid ≡ map.empty }
    {
        self.slots.clear();
        self.was_taken = false;
    }
}

/// Where the slot of a number stands, or else where it would. A binary search.
fn position(slots: &[Slot], number: u64) -> Result<usize, usize>
    requires { IsRising slots.now }
    ensures place { MatchResult result (IsFound number slots.now) (IsGap number slots.now) }
    ensures bound { MatchResult result (λ i. i < length slots.now) (λ i. i ≤ length slots.now) }
{
    slots.binary_search_by_key(&number, |slot| slot.number)
}
