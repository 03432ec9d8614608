// The prices of hours without steps: where prices can give way they are kept between the least and the greatest price of the blocks, since what such an hour
// pays by itself, 1, 150000 or 300000, lies far from all of them. Any prices are right.
ghost use Rattle.std.specs.Prelude.{◌≤◌};
ghost use Rattle.rules.specs.Orders.{max_price};
ghost use Rattle.book.specs.Bounds.{most_blocks};
ghost use Rattle.places.specs.Hours.{Small, FirstSmall, HasRows, last_in};

use fields::MAX_PRICE;
use orders::Blocks;
use places::cells::{highs_at, lows_at};
use places::layout::HOURS;
use places::numbers::choose;

// The least and the greatest price of the blocks.
// Not one type with Bounds: what Bounds holds by its ghost field is said of arrays, this of numbers.
#[derive(Drop)]
struct Ends {
    least: u32,
    most: u32,
}

// The ends of the blocks' prices.
fn ends_of(blocks: &Blocks) -> Ends
    requires { (blocks.now.count ≤ most_blocks) × FirstSmall blocks.now.count max_price blocks.now.prices }
    ensures { (result.least ≤ max_price) × (result.most ≤ max_price) }
{
    let mut least = MAX_PRICE;
    let mut most = 0;
    for i in 0..blocks.count {
        least = least.min(blocks.prices[i]);
        most = most.max(blocks.prices[i]);
    }
    Ends { least, most }
}

// Between which prices those of each hour are kept.
#[derive(Clone, Copy)]
pub struct Bounds {
    pub least: [u32; HOURS],
    pub most: [u32; HOURS],
    ghost small: { Small max_price least × Small max_price most },
}

// The bounds of each hour at the places of the empty set: the ends of the blocks' prices where prices can give way and every price clears the hour, else all prices.
pub fn bounds_of(shifts: bool, unit_prices: &[u32], off: [u32; HOURS], blocks: &Blocks) -> Bounds
    requires tables { HasRows unit_prices.now × Small max_price unit_prices.now × Small (last_in unit_prices.now) off }
    requires blocks { (blocks.now.count ≤ most_blocks) × FirstSmall blocks.now.count max_price blocks.now.prices }
{
    let ends = ends_of(blocks);
    let highs = highs_at(unit_prices, off);
    let lows = lows_at(unit_prices, off);
    let mut least = [0; HOURS];
    let mut most = [0; HOURS];
    for h in 0..HOURS {
        let empty = shifts & (highs[h] == MAX_PRICE) & (lows[h] == 1);
        least[h] = choose(empty, ends.least, 0);
        most[h] = choose(empty, ends.most, MAX_PRICE);
    }
    Bounds { least, most }
}

// Prices kept between bounds.
pub fn held(prices: [u32; HOURS], bounds: &Bounds) -> [u32; HOURS]
    requires { Small max_price prices }
    ensures { Small max_price result }
{
    let mut r = [0; HOURS];
    for h in 0..HOURS {
        r[h] = prices[h].min(bounds.most[h]).max(bounds.least[h]);
    }
    r
}
