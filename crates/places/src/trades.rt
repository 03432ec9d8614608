// What the blocks of a decided set sell and buy in each hour, and what is traded there with the steps.
ghost use Rattle.std.specs.Prelude.{◌≡◌, ◌+◌, ◌≤◌, length};
ghost use Rattle.book.specs.Bounds.{most_blocks};
ghost use Rattle.places.specs.Layout.{hour_places, most_place};
ghost use Rattle.places.specs.Hours.{Small};
ghost use Rattle.places.specs.Blocks.{BlocksSized, SetTrades};
ghost use Rattle.places.specs.Steps.{steps_at, StepsSized, HoursTraded};

use crate::added::moved_where;
use crate::layout::{HOURS, SIDE};
use orders::DaySteps;
use pricing::execution::traded_at;

// What blocks sell and buy in each hour.
#[derive(Drop)]
pub struct Trades {
    pub sales: [u32; HOURS],
    pub buys: [u32; HOURS],
}

// What the first count blocks that the set holds sell and buy.
pub fn set_trades(blocks: &[u32], count: usize, set: u32) -> Trades
    requires { BlocksSized blocks.now × (count ≤ most_blocks) }
    ensures { SetTrades blocks.now count set result.sales result.buys }
{
    let mut sales = [0; HOURS];
    let mut buys = [0; HOURS];
    for i in (0..count).rev() {
        let chosen = (set >> (i as u32)) % 2 == 1;
        let side = blocks[SIDE + i];
        let sold = moved_where(chosen & (side != 0), sales, blocks, i);
        let bought = moved_where(chosen & (side == 0), buys, blocks, i);
        sales = sold;
        buys = bought;
    }
    Trades { sales, buys }
}

// What is traded in each hour at its price.
pub fn hours_traded(steps: &DaySteps, trades: Trades, middles: [u32; HOURS]) -> [u32; HOURS]
    requires { (length steps.now.ends.now ≡ hour_places + 1)
        × StepsSized steps.now.ends.now steps.now.sides.now steps.now.prices.now steps.now.quantities.now × Small most_place trades.buys }
    ensures { HoursTraded (steps_at steps.now.ends.now steps.now.sides.now steps.now.prices.now steps.now.quantities.now) trades.sales
        trades.buys middles result }
{
    let sales = trades.sales;
    let buys = trades.buys;
    let mut traded = [0; HOURS];
    for h in 0..HOURS {
        traded[h] = traded_at(&steps.hour(h), sales[h], buys[h], middles[h]);
    }
    traded
}
