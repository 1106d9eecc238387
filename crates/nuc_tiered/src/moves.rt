ghost use Rattle.std.specs.Prelude.{◌≡◌, ◌≤◌, ◌+◌, ◌*◌, ◌/◌, ◌%◌, length};
ghost use Rattle.std.specs.List.{insert};
ghost use Rattle.nuc_tiered.specs.Rings.{IsRings, row};

use crate::rings::{BLOCK, exchange, turn_down, turn_up};

/// Moves the hand up from one position to another, item by item.
fn items_up(cells: &mut [usize], heads: &[usize], from: usize, to: usize, mut hand: usize) -> usize
    requires form { IsRings cells.old heads.now }
    requires order { from ≤ to }
    requires within { to ≤ length cells.old }
    ensures form { IsRings cells.new heads.now }
    ensures length { length cells.new ≡ length cells.old }
    ensures row { insert (row cells.new heads.now) to result ≡ insert (row cells.old heads.now) from hand }
{
    for p in from..to {
        hand = exchange(cells, heads, p, hand);
    }
    hand
}

/// Moves the hand down from one position to another, item by item.
fn items_down(
    cells: &mut [usize],
    heads: &[usize],
    from: usize,
    to: usize,
    mut hand: usize,
) -> usize
    requires form { IsRings cells.old heads.now }
    requires order { to ≤ from }
    requires within { from ≤ length cells.old }
    ensures form { IsRings cells.new heads.now }
    ensures length { length cells.new ≡ length cells.old }
    ensures row { insert (row cells.new heads.now) to result ≡ insert (row cells.old heads.now) from hand }
{
    let mut p = from;
    while p > to {
        p -= 1;
        hand = exchange(cells, heads, p, hand);
    }
    hand
}

/// Moves the hand up from the start of one block to that of another, ring by ring.
fn rings_up(
    cells: &mut [usize],
    heads: &mut [usize],
    from: usize,
    to: usize,
    mut hand: usize,
) -> usize
    requires form { IsRings cells.old heads.old }
    requires order { from ≤ to }
    requires within { to ≤ length heads.old }
    ensures form { IsRings cells.new heads.new }
    ensures length { length cells.new ≡ length cells.old }
    ensures row { insert (row cells.new heads.new) (to * 512) result ≡ insert (row cells.old heads.old) (from * 512) hand }
{
    for k in from..to {
        hand = turn_up(cells, heads, k, hand);
    }
    hand
}

/// Moves the hand down from the start of one block to that of another, ring by ring.
fn rings_down(
    cells: &mut [usize],
    heads: &mut [usize],
    from: usize,
    to: usize,
    mut hand: usize,
) -> usize
    requires form { IsRings cells.old heads.old }
    requires order { to ≤ from }
    requires within { from ≤ length heads.old }
    ensures form { IsRings cells.new heads.new }
    ensures length { length cells.new ≡ length cells.old }
    ensures row { insert (row cells.new heads.new) (to * 512) result ≡ insert (row cells.old heads.old) (from * 512) hand }
{
    let mut k = from;
    while k > to {
        k -= 1;
        hand = turn_down(cells, heads, k, hand);
    }
    hand
}

/// Moves the hand from one position to another, item by item.
fn items_to(cells: &mut [usize], heads: &[usize], from: usize, to: usize, hand: usize) -> usize
    requires form { IsRings cells.old heads.now }
    requires start { from ≤ length cells.old }
    requires end { to ≤ length cells.old }
    ensures form { IsRings cells.new heads.now }
    ensures length { length cells.new ≡ length cells.old }
    ensures row { insert (row cells.new heads.now) to result ≡ insert (row cells.old heads.now) from hand }
{
    if from <= to {
        items_up(cells, heads, from, to, hand)
    } else {
        items_down(cells, heads, from, to, hand)
    }
}

/// The block whose start is nearest to a position: its own, or the next one.
fn nearest(p: usize) -> usize
    ensures { result ≡ p / 512 + p % 512 / 256 }
{
    p / BLOCK + p % BLOCK / (BLOCK / 2)
}

/// Moves the hand up from one position to another. Only at its two ends does that go item by item: first to the nearest start
/// of a block, be it below.
pub fn move_up(
    cells: &mut [usize],
    heads: &mut [usize],
    from: usize,
    to: usize,
    hand: usize,
) -> usize
    requires form { IsRings cells.old heads.old }
    requires order { from ≤ to }
    requires within { to ≤ length cells.old }
    ensures form { IsRings cells.new heads.new }
    ensures length { length cells.new ≡ length cells.old }
    ensures row { insert (row cells.new heads.new) to result ≡ insert (row cells.old heads.old) from hand }
{
    let high = to / BLOCK;
    if from / BLOCK == high {
        return items_up(cells, heads, from, to, hand);
    }
    let low = nearest(from);
    let hand = items_to(cells, heads, from, low * BLOCK, hand);
    let hand = rings_up(cells, heads, low, high, hand);
    items_up(cells, heads, high * BLOCK, to, hand)
}

/// Moves the hand down from one position to another. Only at its two ends does that go item by item: last from the nearest
/// start of a block, be it below.
pub fn move_down(
    cells: &mut [usize],
    heads: &mut [usize],
    from: usize,
    to: usize,
    hand: usize,
) -> usize
    requires form { IsRings cells.old heads.old }
    requires order { to ≤ from }
    requires within { from ≤ length cells.old }
    ensures form { IsRings cells.new heads.new }
    ensures length { length cells.new ≡ length cells.old }
    ensures row { insert (row cells.new heads.new) to result ≡ insert (row cells.old heads.old) from hand }
{
    let high = from / BLOCK;
    if to / BLOCK == high {
        return items_down(cells, heads, from, to, hand);
    }
    let low = nearest(to);
    let hand = items_down(cells, heads, from, high * BLOCK, hand);
    let hand = rings_down(cells, heads, high, low, hand);
    items_to(cells, heads, low * BLOCK, to, hand)
}
