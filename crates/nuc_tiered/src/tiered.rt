ghost use Rattle.std.specs.Prelude.{◌≡◌, ◌+◌, ◌<◌, ◌≤◌, [], Some, length, slice_get, OnOk, OnErr};
ghost use Rattle.std.specs.List.{insert, remove};

use crate::moves::{move_down, move_up};
use crate::rings::{BLOCK, cell_of};
use std::alloc::{AllocError, Global};
use std::marker::Model;

/// A list of numbers in blocks of 512, each a ring that starts at its own head. Reading takes constant time. An insert or
/// a remove moves by one the items behind it in its block and those of the last block, and of each block between them no
/// more than one item and the head.
#[derive(Debug, Drop)]
pub struct TieredVec {
    cells: Vec<usize>,
    heads: Vec<usize>,
    len: usize,
}

impl Model for TieredVec {
    ghost use Rattle.std.specs.Prelude.{◌-◌, length, take};
    ghost use Rattle.nuc_tiered.specs.Rings.{IsTiered, row};
    ghost use Rattle.nuc_tiered.specs.State.{TieredState, state_code};

    ghost Value = { TieredState };

    ghost coded = { state_code };

    ghost view = { λ t. record { items = take t.len (row t.cells.items t.heads.items); spare = length t.cells.items - t.len } };

    ghost invariant = { λ t. IsTiered t.cells.items t.heads.items t.len };
}

impl TieredVec {
    /// The empty list. It takes no memory.
    pub fn new(alloc: Global) -> TieredVec
        ensures { result.items ≡ [] }
    {
        TieredVec {
            cells: Vec::new(alloc),
            heads: Vec::new(alloc),
            len: 0,
        }
    }

    /// How many items there are.
    pub fn len(&self) -> usize
        ensures { result ≡ length self.now.items }
    {
        self.len
    }

    /// The item at a position, if there is one. It takes constant time.
    pub fn get(&self, i: usize) -> Option<usize>
        ensures { result ≡ slice_get self.now.items i }
    {
        if i >= self.len {
            return None;
        }
        Some(self.cells[cell_of(&self.heads, i)])
    }

    /// Makes room for that many more items, in whole blocks. Where the room is there it can't fail; an error says that there is
    /// no memory.
    pub fn reserve(&mut self, n: usize) -> Result<(), AllocError>
        ensures ok { OnOk result (n ≤ self.new.spare) }
        ensures items { self.new.items ≡ self.old.items }
        ensures memory { OnErr result (self.old.spare < n) }
        ensures spare { self.old.spare ≤ self.new.spare }
    {
        let spare = self.cells.len() - self.len;
        if n <= spare {
            return Ok(());
        }
        let blocks = (n - spare - 1) / BLOCK + 1;
        let heads = self.heads.len() + blocks;
        let cells = heads.checked_mul(BLOCK).ok_or(AllocError)?;
        self.heads.reserve(blocks)?;
        self.cells.resize(cells, 0)?;
        let Ok(()) = self.heads.resize(heads, 0) else {
            unreachable!()
        };
        Ok(())
    }

    /// Puts an item in at a position. The room is there, so it takes no memory.
    pub fn insert(&mut self, i: usize, x: usize)
        requires within { i ≤ length self.old.items }
        requires room { 0 < self.old.spare }
        ensures items { self.new.items ≡ insert self.old.items i x }
        ensures spare { self.old.spare ≡ self.new.spare + 1 }
    {
        self.len += 1;
        let end = reach(i, self.len, self.cells.len());
        move_up(&mut self.cells, &mut self.heads, i, end, x);
    }

    /// Takes the item at a position out, and hands it over. Its room is spare then.
    pub fn remove(&mut self, i: usize) -> usize
        requires within { i < length self.old.items }
        ensures value { slice_get self.old.items i ≡ Some result }
        ensures items { self.new.items ≡ remove self.old.items i }
        ensures spare { self.new.spare ≡ self.old.spare + 1 }
    {
        let end = reach(i, self.len, self.cells.len());
        let result = move_down(&mut self.cells, &mut self.heads, end, i, 0);
        self.len -= 1;
        result
    }
}

/// Where the hand ends that goes up from a position through so many items: where they end, if that is in the same block, and
/// else where the last block ends, so that it turns as the others do.
fn reach(i: usize, len: usize, cells: usize) -> usize
    requires some { 0 < len }
    requires within { len ≤ cells }
    ensures behind { len ≤ result }
    ensures within { result ≤ cells }
{
    let last = (len - 1) / BLOCK;
    if i / BLOCK == last {
        return len;
    }
    (last * BLOCK).saturating_add(BLOCK).min(cells)
}
