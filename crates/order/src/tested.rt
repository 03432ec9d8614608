// An order of the blocks, tested: that the chosen one is an order of them is not proved, and where it were none the blocks stand by their numbers.
ghost use Rattle.std.specs.Prelude.{◌≡◌, true, ◌≤◌, ◌<◌};
ghost use Rattle.book.specs.Bounds.{most_blocks};
ghost use Rattle.places.specs.Blocks.{BlocksSized};
ghost use Rattle.order.specs.Order.{IsOrderOf};
ghost use Rattle.order.specs.Written.{stands_at, EachItself};

use crate::chosen::{deciding_order, places_of};
use crate::names::stands_before;
use crate::{Listed, Order};
use places::layout::PARENT;
use std::array::from_fn;

// Whether the block at place j and the place of block j lead back to j, and the block's parent stands before place j.
fn stands_at(listed: &Listed, order: &Order, j: usize) -> bool
    requires { j < most_blocks }
    ensures { result ≡ stands_at listed.now.blocks.now listed.now.count order.now.blocks order.now.places j }
{
    let count = listed.count;
    let i = order.blocks[j];
    let at = order.places[j];
    if count <= i {
        return false;
    }
    if count <= at {
        return false;
    }
    let leads_back = (order.places[i] == j) & (order.blocks[at] == j);
    leads_back & stands_before(order, listed.blocks[PARENT + i], j)
}

// Whether a list of blocks and a list of places are an order of the first count blocks and the place of each in it, parents before their children.
fn is_order(listed: &Listed, order: &Order) -> bool
    ensures { (result ≡ true → IsOrderOf listed.now.blocks.now listed.now.count order.now.blocks order.now.places)
        × (IsOrderOf listed.now.blocks.now listed.now.count order.now.blocks order.now.places → result ≡ true) }
{
    (0..listed.count).all(|j| stands_at(listed, order, j))
}

// The numbers themselves: an order too, since a parent has the lower number.
fn by_themselves() -> Order
    ensures { EachItself result.blocks × EachItself result.places }
{
    Order {
        blocks: from_fn(|i| i),
        places: from_fn(|i| i),
    }
}

// The order in which the first count blocks are decided: the chosen one, where it is an order.
pub fn order_of(blocks: &[u32], count: usize) -> Order
    requires { BlocksSized blocks.now × (count ≤ most_blocks) }
    ensures { IsOrderOf blocks.now count result.blocks result.places }
{
    let listed = Listed { blocks, count };
    let chosen = deciding_order(&listed);
    let order = Order {
        blocks: chosen,
        places: places_of(chosen, count),
    };
    if is_order(&listed, &order) {
        return order;
    }
    by_themselves()
}
