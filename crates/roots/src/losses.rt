// What the empty set loses at given prices: what the blocks would gain there, and what the hours lose at its places. Hour 3 counts `often` times.
ghost use Rattle.std.specs.Prelude.{◌+◌, ◌-◌, ◌*◌, ◌≤◌, ◌<◌, length};
ghost use Rattle.rules.specs.Orders.{max_price};
ghost use Rattle.book.specs.Bounds.{most_blocks};
ghost use Rattle.places.specs.Layout.{hour_places, most_quantity, most_limit, last_place, last_and_above};
ghost use Rattle.places.specs.Hours.{Small, FirstSmall, HasRows, last_in};
ghost use Rattle.roots.specs.Roots.{RowHeld};

use orders::Blocks;
use places::cells::counted_prices;
use places::layout::{CHANGE_ROW, HOURS, MOST_BLOCKS};
use places::limits::price_sum;
use places::numbers::{by_side, choose};

// What an hour at the place from loses at a price below its own: how far the prices of the places above stand over it.
fn gap_up(unit_prices: &[u32], row: usize, width: usize, from: usize, price: u32) -> u64
    requires { RowHeld unit_prices.now row width × Small max_price unit_prices.now × (from < width) }
    ensures { result ≤ (last_place + last_and_above) * max_price }
{
    let mut sum = 0;
    for i in from + 1..width {
        let cell = unit_prices[row + i];
        if cell <= price {
            return sum;
        }
        sum += u64::from(cell - price);
    }
    sum
}

// What it loses at a price above its own: how far the prices of the places down from it stand under it.
fn gap_down(unit_prices: &[u32], row: usize, from: usize, price: u32) -> u64
    requires { (row + from < length unit_prices.now) × (length unit_prices.now < hour_places * (last_place + 3)) × (from ≤ last_place) × (price ≤ max_price) }
    ensures { result ≤ (last_place + last_and_above) * max_price }
{
    let mut sum = 0;
    for i in (1..=from).rev() {
        let cell = unit_prices[row + i];
        if price <= cell {
            return sum;
        }
        sum += u64::from(price - cell);
    }
    sum
}

// What the hours at the places off lose at the prices, as they count.
fn gaps_from(unit_prices: &[u32], off: [u32; HOURS], prices: [u32; HOURS], often: u32) -> u64
    requires tables { HasRows unit_prices.now × Small max_price unit_prices.now × Small (last_in unit_prices.now) off }
    requires prices { Small max_price prices × (often ≤ 2) }
    ensures { result ≤ 4 * hour_places * ((last_place + last_and_above) * max_price) }
{
    let width = unit_prices.len() / HOURS;
    let mut sum = 0;
    for h in 0..HOURS {
        let row = h * width;
        let from = off[h] as usize;
        let up = gap_up(unit_prices, row, width, from, prices[h]);
        let down = gap_down(unit_prices, row, from, prices[h]);
        let times = u64::from(choose(h == CHANGE_ROW, often, 1));
        sum += times * (up + down);
    }
    sum
}

// What a block gains at a sum of prices over its hours.
fn gain_of(side: u8, quantity: u32, limit: u32, sum: u32) -> u32
    requires { (quantity ≤ most_quantity) × (limit ≤ most_limit) × (sum ≤ most_limit) }
    ensures { result ≤ most_quantity * most_limit }
{
    quantity * by_side(side, limit.saturating_sub(sum), sum.saturating_sub(limit))
}

// The blocks with what each asks for over its hours, and how often hour 3 counts.
#[derive(Clone, Copy)]
pub struct Asked<'a> {
    pub blocks: &'a Blocks,
    pub limits: [u32; MOST_BLOCKS],
    pub often: u32,
    ghost few: { (blocks.now.count ≤ most_blocks) × FirstSmall blocks.now.count most_quantity blocks.now.quantities },
    ghost fits: { often ≤ 2 },
}

// What the blocks gain at the prices root, as they count.
fn gains_at(asked: &Asked, root: [u32; HOURS]) -> u64
    requires { Small most_limit asked.now.limits × Small max_price root }
    ensures { result ≤ most_blocks * (most_quantity * most_limit) }
{
    let blocks = asked.blocks;
    let counted = counted_prices(root, asked.often);
    let mut gains = 0;
    for i in 0..blocks.count {
        let sum = price_sum(&counted, blocks.hours[i]);
        let gain = gain_of(blocks.sides[i], blocks.quantities[i], asked.limits[i], sum);
        gains += u64::from(gain);
    }
    gains
}

// What the empty set, whose places are off, loses at the prices root: what the blocks would gain and what the hours lose.
pub fn loss_at(unit_prices: &[u32], off: [u32; HOURS], asked: &Asked, root: [u32; HOURS]) -> u64
    requires tables { HasRows unit_prices.now × Small max_price unit_prices.now × Small (last_in unit_prices.now) off }
    requires prices { Small most_limit asked.now.limits × Small max_price root }
    ensures { result ≤ most_blocks * (most_quantity * most_limit) + 4 * hour_places * ((last_place + last_and_above) * max_price) }
{
    gains_at(asked, root) + gaps_from(unit_prices, off, root, asked.often)
}
