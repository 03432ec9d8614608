// The limits of the blocks: the sum of prices over a block's hours, and whether the blocks of a set keep their limits.
ghost use Rattle.std.specs.Prelude.{◌≡◌, ◌≤◌, length};
ghost use Rattle.book.specs.Bounds.{most_blocks};
ghost use Rattle.places.specs.Layout.{most_limit, block_list_size};
ghost use Rattle.places.specs.Hours.{DayPrices, sum_of_hours};
ghost use Rattle.places.specs.Blocks.{keeps_at, all_keep};

use crate::layout::{HOURS, LIMIT, RUNS, SIDE};

// The sum of prices over the hours of a block.
pub fn price_sum(prices: &[u32], hours: u32) -> u32
    requires { DayPrices prices.now }
    ensures { (result ≡ sum_of_hours prices.now hours) × (result ≤ most_limit) }
{
    let mut sum: u32 = 0;
    let mut rest = hours;
    for h in 0..HOURS {
        sum += (rest % 2) * prices[h];
        rest = rest / 2;
    }
    sum
}

// Whether a block keeps its limit: the sum of the low prices over its hours is at most the limit for a buy, that of the high prices at least the limit
// for a sell.
pub fn keeps_limit(side: u32, hours: u32, limit: u32, high: &[u32], low: &[u32]) -> bool
    requires { DayPrices high.now × DayPrices low.now }
    ensures { result ≡ keeps_at side hours limit high.now low.now }
{
    if side == 0 {
        price_sum(low, hours) <= limit
    } else {
        limit <= price_sum(high, hours)
    }
}

// Whether each of the first count blocks that the set holds keeps its limit: a buy at the low prices, a sell at the high ones.
pub fn keeps_limits(blocks: &[u32], count: usize, set: u32, high: &[u32], low: &[u32]) -> bool
    requires { (length blocks.now ≡ block_list_size) × (count ≤ most_blocks) × DayPrices high.now × DayPrices low.now }
    ensures { result ≡ all_keep blocks.now set high.now low.now count }
{
    for i in (0..count).rev() {
        let chosen = (set >> (i as u32)) % 2;
        if chosen == 1 {
            if !keeps_limit(
                blocks[SIDE + i],
                blocks[RUNS + i],
                blocks[LIMIT + i],
                high,
                low,
            ) {
                return false;
            }
        }
    }
    true
}
