// Blocks named by their places in an order: a name is a number and 1, or 0 for none, and no Option: names lie in the packed list that the search reads.
ghost use Rattle.std.specs.Prelude.{◌≡◌, ◌≤◌, ◌<◌, leb};
ghost use Rattle.rules.proofs.Ranks.{rank_of};
ghost use Rattle.book.specs.Bounds.{most_blocks};
ghost use Rattle.order.specs.Order.{placed_name};
ghost use Rattle.order.specs.Written.{earlier_name};

use crate::Order;

// The highest bit of a rank: that of block 0.
const LAST_BIT: u32 = 31;

// Whether the block that is named stands before place j, or none is named.
pub fn stands_before(order: &Order, name: u32, j: usize) -> bool
    requires { name ≤ most_blocks }
    ensures { result ≡ leb (placed_name order.now.places name) j }
{
    match name.checked_sub(1) {
        None => true,
        Some(i) => order.places[i as usize] < j,
    }
}

// The name of a block by its place.
pub fn placed_name(order: &Order, name: u32) -> u32
    requires { (name ≤ most_blocks) × (placed_name order.now.places name ≤ most_blocks) }
    ensures { result ≡ placed_name order.now.places name }
{
    match name.checked_sub(1) {
        None => 0,
        Some(i) => (order.places[i as usize] + 1) as u32,
    }
}

// The name of a block by its place, where it is one of count and stands before place j; else none.
pub fn earlier_name(order: &Order, count: usize, j: usize, name: u32) -> u32
    requires { (name ≤ most_blocks) × (j < most_blocks) }
    ensures { result ≡ earlier_name order.now.places count j name }
{
    if count < name as usize {
        return 0;
    }
    if !stands_before(order, name, j) {
        return 0;
    }
    placed_name(order, name)
}

// The rank of block number i: the lower its number, the higher, and more than those of all after it together.
pub fn rank_of(i: u32) -> u32
    requires { i < most_blocks }
    ensures { result ≡ rank_of i }
{
    1u32 << (LAST_BIT - i)
}
