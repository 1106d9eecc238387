ghost use Rattle.std.specs.Prelude.{◌≡◌, ◌<◌, ◌*◌, ◌+◌, length};
ghost use Rattle.std.specs.List.{insert};
ghost use Rattle.nuc_tiered.specs.Rings.{AreHeads, IsRings, cell, row};

use std::mem;

/// How many items a block has.
pub const BLOCK: usize = 512;

/// The cell in which the item at a position stands.
pub fn cell_of(heads: &[usize], p: usize) -> usize
    requires heads { AreHeads heads.now }
    requires within { p < 512 * length heads.now }
    ensures value { result ≡ cell heads.now p }
    ensures bound { result < 512 * length heads.now }
{
    let k = p / BLOCK;
    k * BLOCK + (heads[k] + p % BLOCK) % BLOCK
}

/// Exchanges the item at a position with the one in hand. So the hand goes up by one, or down by one.
pub fn exchange(cells: &mut [usize], heads: &[usize], p: usize, hand: usize) -> usize
    requires form { IsRings cells.old heads.now }
    requires within { p < length cells.old }
    ensures form { IsRings cells.new heads.now }
    ensures length { length cells.new ≡ length cells.old }
    ensures up { insert (row cells.new heads.now) (p + 1) result ≡ insert (row cells.old heads.now) p hand }
    ensures down { insert (row cells.new heads.now) p result ≡ insert (row cells.old heads.now) (p + 1) hand }
{
    let at = cell_of(heads, p);
    mem::replace(&mut cells[at], hand)
}

/// Turns a ring so that its items go up by one: the one in hand comes in first, the last one goes out.
pub fn turn_up(cells: &mut [usize], heads: &mut [usize], k: usize, hand: usize) -> usize
    requires form { IsRings cells.old heads.old }
    requires within { k < length heads.old }
    ensures form { IsRings cells.new heads.new }
    ensures length { length cells.new ≡ length cells.old }
    ensures up { insert (row cells.new heads.new) (k * 512 + 512) result ≡ insert (row cells.old heads.old) (k * 512) hand }
{
    let head = (heads[k] + (BLOCK - 1)) % BLOCK;
    heads[k] = head;
    mem::replace(&mut cells[k * BLOCK + head], hand)
}

/// Turns a ring so that its items go down by one: the one in hand comes in last, the first one goes out.
pub fn turn_down(cells: &mut [usize], heads: &mut [usize], k: usize, hand: usize) -> usize
    requires form { IsRings cells.old heads.old }
    requires within { k < length heads.old }
    ensures form { IsRings cells.new heads.new }
    ensures length { length cells.new ≡ length cells.old }
    ensures down { insert (row cells.new heads.new) (k * 512) result ≡ insert (row cells.old heads.old) (k * 512 + 512) hand }
{
    let head = heads[k];
    heads[k] = (head + 1) % BLOCK;
    mem::replace(&mut cells[k * BLOCK + head], hand)
}
