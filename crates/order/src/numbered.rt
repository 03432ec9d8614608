// Sets of places as sets of blocks by their numbers.
ghost use Rattle.std.specs.Prelude.{◌≤◌};
ghost use Rattle.book.specs.Bounds.{most_blocks};
ghost use Rattle.order.specs.Order.{EachBelow, ByNumber};

use crate::Order;

// The blocks at the places of a set, by their numbers: block i is in it where its place is in the set.
pub fn by_number(set: u32, order: &Order, count: usize) -> u32
    requires { (count ≤ most_blocks) × EachBelow count count order.now.places }
    ensures { ByNumber count order.now.places set result }
{
    let mut numbered: u32 = 0;
    for i in (0..count).rev() {
        let held = (set >> order.places[i]) % 2;
        numbered = numbered * 2 + held;
    }
    numbered
}
