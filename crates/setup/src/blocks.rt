// The blocks for the search: what they trade in each hour, their six columns at the root prices, their parents, and a row of hours for each.
ghost use Rattle.std.specs.Prelude.{◌≡◌, ℕ, ◌≤◌, ◌<◌};
ghost use Rattle.rules.specs.Day.{autumn_hours};
ghost use Rattle.book.specs.Bounds.{most_blocks};
ghost use Rattle.places.specs.Layout.{most_quantity, most_limit};
ghost use Rattle.places.specs.Hours.{Small, FirstSmall, DayPrices};
ghost use Rattle.places.specs.Blocks.{quantity_at};
ghost use Rattle.setup.specs.Setup.{BlocksHeld, TradedBy, written, Written, Widened, ParentsWritten, RowsEmpty, RowsWritten};

use fields::hours::counted_hours;
use orders::Blocks;
use places::added::moved;
use places::layout::{
    AGAINST, BLOCK_LIST, BLOCK_ROWS, GAIN, HOURS, LIMIT, MOST_BLOCKS, PARENT, QUANTITY, RUNS, SIDE,
    SIX_COLUMNS,
};
use places::limits::price_sum;
use places::numbers::{by_side, choose};

// The largest number of a column of hours.
pub fn largest(column: [u32; HOURS]) -> u32
    ensures { Small result column × ((m : ℕ) → Small m column → result ≤ m) }
{
    let mut most: u32 = 0;
    for number in column {
        most = most.max(number);
    }
    most
}

// What the buy blocks buy in each hour; where `all` is true, with what the sell blocks sell.
pub fn traded_by_hour(blocks: &Blocks, all: bool) -> [u32; HOURS]
    requires { (blocks.now.count ≤ most_blocks) × FirstSmall blocks.now.count most_quantity blocks.now.quantities }
    ensures { TradedBy blocks.now.count blocks.now.sides blocks.now.hours blocks.now.quantities all result }
{
    let mut sum = [0; HOURS];
    for i in 0..blocks.count {
        let quantity = blocks.quantities[i];
        let traded = by_side(blocks.sides[i], quantity, choose(all, quantity, 0));
        let more = moved(sum, blocks.hours[i], traded);
        sum = more;
    }
    sum
}

// The columns with block i written: its side, hours, quantity, limit, and what it loses if taken and if left out.
fn with_block(
    columns: [u32; SIX_COLUMNS],
    i: usize,
    side: u8,
    hours: u32,
    quantity: u32,
    limit: u32,
    sum: u32,
) -> [u32; SIX_COLUMNS]
    requires { (i < most_blocks) × (quantity ≤ most_quantity) × (limit ≤ most_limit) × (sum ≤ most_limit) }
    ensures { result ≡ written columns i side hours quantity limit sum }
{
    let mut r = columns;
    let over = sum.saturating_sub(limit);
    let under = limit.saturating_sub(sum);
    r[SIDE + i] = u32::from(side);
    r[RUNS + i] = hours;
    r[QUANTITY + i] = quantity;
    r[LIMIT + i] = limit;
    r[AGAINST + i] = quantity * by_side(side, over, under);
    r[GAIN + i] = quantity * by_side(side, under, over);
    r
}

// The blocks' six columns on a day of so many hours, at the prices root as they count.
pub fn block_columns(day: u8, blocks: &Blocks, root: [u32; HOURS]) -> [u32; SIX_COLUMNS]
    requires { BlocksHeld blocks.now.count blocks.now.prices blocks.now.quantities × DayPrices root × (day ≤ autumn_hours) }
    ensures small { (i : ℕ) → i < most_blocks → quantity_at result i ≤ most_quantity }
    ensures blocks { (i : ℕ) → i < blocks.now.count → Written day blocks.now.sides blocks.now.hours blocks.now.prices blocks.now.quantities root result i }
{
    let mut columns = [0; SIX_COLUMNS];
    for i in 0..blocks.count {
        let hours = blocks.hours[i];
        let limit = blocks.prices[i] * counted_hours(day, hours);
        let more = with_block(
            columns,
            i,
            blocks.sides[i],
            hours,
            blocks.quantities[i],
            limit,
            price_sum(&root, hours),
        );
        columns = more;
    }
    columns
}

// The blocks' six columns with room for their parents, twins and rows.
pub fn widened(columns: [u32; SIX_COLUMNS]) -> [u32; BLOCK_LIST]
    ensures { Widened columns result }
{
    let mut r = [0; BLOCK_LIST];
    r[..SIX_COLUMNS].copy_from_slice(&columns);
    r
}

// The same with the parent of each block.
pub fn with_parents(parents: [u32; MOST_BLOCKS], blocks: [u32; BLOCK_LIST]) -> [u32; BLOCK_LIST]
    ensures { ParentsWritten parents blocks result }
{
    let mut r = blocks;
    for i in 0..MOST_BLOCKS {
        r[PARENT + i] = parents[i];
    }
    r
}

// The same with a row for each block: what it trades in each of the hours.
pub fn with_rows(count: usize, blocks: [u32; BLOCK_LIST]) -> [u32; BLOCK_LIST]
    requires { (count ≤ most_blocks) × RowsEmpty blocks }
    ensures { RowsWritten count blocks result }
{
    let mut r = blocks;
    for k in 0..HOURS * count {
        let runs = (blocks[RUNS + k / HOURS] >> (k % HOURS)) % 2;
        r[BLOCK_ROWS + k] = runs * blocks[QUANTITY + k / HOURS];
    }
    r
}
