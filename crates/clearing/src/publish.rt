// The publication: what the orders of each hour get at its price, the welfare, and with them and the day the result's
// bytes. Assumes nothing.
ghost use Rattle.std.specs.Prelude.{◌≡◌, ◌+◌, ◌*◌, ◌^◌, ◌≤◌, ◌<◌, length, get_or};
ghost use Rattle.fields.specs.Hours.{counted_hours};
ghost use Rattle.records.specs.Layout.{last_hour};
ghost use Rattle.fields.specs.Bounds.{most_step_quantity};
ghost use Rattle.rules.specs.Orders.{max_price};
ghost use Rattle.rules.specs.Hour.{by_side, when};
ghost use Rattle.rules.specs.Day.{autumn_hours};
ghost use Rattle.orders.specs.Columns.{side_for};
ghost use Rattle.places.specs.Layout.{last_place, most_limit, most_quantity};
ghost use Rattle.places.specs.Hours.{Small, of_hour};
ghost use Rattle.places.specs.Steps.{StepsSized, steps_at};
ghost use Rattle.clearing.specs.Publish.{HourDone, HourPut, SumsOf, WorthOf, HoursDone, TradersSized, HoursPriced};
ghost use Rattle.clearing.specs.Publish.{sales_at, buys_at, Buffer, WhereCounted, RowsOf, PublishedFrom, PublishedIn, Publishable};

use fields::hours::{change_weight, counted_hours};
use orders::layout::{HOURS, STEP_PLACES};
use orders::{Blocks, HourSteps, Steps};
use places::cells::times_of;
use places::layout::CHANGE_ROW;
use pricing::BIAS;
use pricing::blocks::{Trades, trades_of};
use result::{block_values, with_rows, write_result};
use search::Day;
use shares::{amounts_at, share_out};

// What quantities are worth: the value of the buys and the cost of the sells.
#[derive(Drop)]
pub struct Sums {
    pub value: u64,
    pub cost: u64,
}

impl Sums {
    // What one quantity more is worth.
    fn add(mut self, side: u8, worth: u64) -> Sums
        requires { (self.value ≤ 2 ^ 62) × (self.cost ≤ 2 ^ 62) × (worth ≤ 2 ^ 62) }
        ensures { (result.value ≡ self.value + by_side (side_for side) worth 0) × (result.cost ≡ self.cost + by_side (side_for side) 0 worth) }
    {
        if side == 0 {
            self.value += worth;
        } else {
            self.cost += worth;
        }
        self
    }
}

// The sums of an hour's steps with a quantity for each.
fn sums_of(steps: &HourSteps, values: &[u32]) -> Sums
    requires { (length steps.now.sides.now ≡ length values.now) × Small max_price steps.now.prices.now × Small most_step_quantity values.now }
    ensures { SumsOf steps.now.sides.now steps.now.prices.now values.now result.value result.cost }
{
    let mut sums = Sums { value: 0, cost: 0 };
    for i in 0..steps.sides.len() {
        let worth = u64::from(values[i]) * u64::from(steps.prices[i]);
        sums = sums.add(steps.sides[i], worth);
    }
    sums
}

// What the orders of an hour get, into out, and its sums; rests is lent to work in.
fn fill_hour(
    steps: &HourSteps,
    trades: Trades,
    price: u32,
    out: &mut [u32],
    rests: &mut [u32],
) -> Sums
    requires { (length steps.now.sides.now ≡ length out.old) × (1 ≤ price) × (trades.sales ≤ last_place)
        × (trades.buys ≤ last_place) × Small max_price steps.now.prices.now × Small most_step_quantity steps.now.quantities.now
        × (length steps.now.sides.now ≡ length rests.old) }
    ensures { HourDone steps.now.sides.now steps.now.prices.now steps.now.quantities.now trades.sales trades.buys price
        out.new result.value result.cost }
{
    let net = (BIAS + trades.sales - trades.buys) as u32;
    let amounts = amounts_at(steps, net, price);
    share_out(steps, price, amounts, out, rests);
    sums_of(steps, out)
}

// The same for hour h + 1, into the places of its steps in values.
fn put_hour(
    steps: &Steps,
    h: usize,
    trades: Trades,
    price: u32,
    values: &mut [u32],
    rests: &mut [u32],
) -> Sums
    requires { (h < last_hour) × StepsSized steps.now.ends steps.now.sides steps.now.prices steps.now.quantities
        × (get_or steps.now.ends (h + 1) 0 ≤ length values.old) × (1 ≤ price) × (trades.sales ≤ last_place)
        × (trades.buys ≤ last_place) × (get_or steps.now.ends (h + 1) 0 ≤ length rests.old) }
    ensures { HourPut steps.now.sides steps.now.prices steps.now.quantities (get_or steps.now.ends h 0)
        (get_or steps.now.ends (h + 1) 0) trades.sales trades.buys price values.old values.new result.value result.cost }
{
    let from = steps.ends[h] as usize;
    let to = steps.ends[h + 1] as usize;
    fill_hour(
        &steps.hour(h),
        trades,
        price,
        &mut values[from..to],
        &mut rests[from..to],
    )
}

// The columns of the blocks that there are, without the room behind them.
#[derive(Clone, Copy)]
struct BlockFronts<'a> {
    records: &'a [u16],
    sides: &'a [u8],
    hours: &'a [u32],
    prices: &'a [u32],
    quantities: &'a [u32],
    ghost sized: { TradersSized sides.now hours.now quantities.now },
    ghost as_many_records: { length sides.now ≡ length records.now },
    ghost as_many_prices: { length sides.now ≡ length prices.now },
    ghost prices_fit: { Small max_price prices.now },
}

// What a block is worth on a day of so many hours: its quantity times its limit over all its hours, if it is chosen.
fn block_worth(day: u8, chosen: bool, hours: u32, price: u32, quantity: u32) -> u64
    requires { (day ≤ autumn_hours) × (price ≤ max_price) × (quantity ≤ most_quantity) }
    ensures { (result ≡ when chosen (quantity * (price * counted_hours day hours))) × (result ≤ most_quantity * most_limit) }
{
    if chosen {
        let limit = price * counted_hours(day, hours);
        return u64::from(quantity * limit);
    }
    0
}

// The value and the cost of the blocks that the set holds, the lowest bit for the first block, on a day of so many hours.
fn blocks_worth(day: u8, blocks: &BlockFronts, set: u32) -> Sums
    requires { day ≤ autumn_hours }
    ensures { WorthOf day blocks.now.sides.now blocks.now.hours.now blocks.now.prices.now blocks.now.quantities.now set result.value result.cost }
{
    let mut sums = Sums { value: 0, cost: 0 };
    let mut rest = set;
    for i in 0..blocks.sides.len() {
        let chosen = rest % 2 == 1;
        let worth = block_worth(
            day,
            chosen,
            blocks.hours[i],
            blocks.prices[i],
            blocks.quantities[i],
        );
        sums = sums.add(blocks.sides[i], worth);
        rest /= 2;
    }
    sums
}

// What the orders of each hour get, hour after hour, into values, and the value and the cost of all of it, hour 3's so often; rests is lent to work in.
fn fill_hours(
    often: u32,
    steps: &Steps,
    blocks: &BlockFronts,
    set: u32,
    middles: [u32; HOURS],
    values: &mut [u32],
    rests: &mut [u32],
) -> Sums
    requires { (often ≤ 2) × StepsSized steps.now.ends steps.now.sides steps.now.prices steps.now.quantities
        × HoursPriced middles × (get_or steps.now.ends last_hour 0 ≤ length values.old) × (get_or steps.now.ends last_hour 0 ≤ length rests.old) }
    ensures { HoursDone often steps.now.ends (steps_at steps.now.ends steps.now.sides steps.now.prices steps.now.quantities)
        (sales_at blocks.now.sides.now blocks.now.hours.now blocks.now.quantities.now set)
        (buys_at blocks.now.sides.now blocks.now.hours.now blocks.now.quantities.now set)
        (of_hour middles) last_hour values.new result.value result.cost }
{
    let mut value: u64 = 0;
    let mut cost: u64 = 0;
    for h in 0..HOURS {
        let trades = trades_of(
            blocks.sides,
            blocks.hours,
            blocks.quantities,
            set,
            (h + 1) as u32,
        );
        let sums = put_hour(steps, h, trades, middles[h], values, rests);
        let times = times_of(h, often);
        value += times * sums.value;
        cost += times * sums.cost;
    }
    Sums { value, cost }
}

// A column of the hours with 0 for hour 3 where it does not count.
fn where_counted(mut column: [u32; HOURS], often: u32) -> [u32; HOURS]
    ensures { WhereCounted often column result }
{
    if often == 0 {
        column[CHANGE_ROW] = 0;
    }
    column
}

// The row of each record: what its order gets, a block's quantity if the set holds it, else 0.
fn rows_of(records: &[u16], values: &[u32], blocks: &BlockFronts, set: u32) -> [u32; STEP_PLACES]
    requires { length records.now ≡ length values.now }
    ensures { RowsOf records.now values.now blocks.now.records.now blocks.now.quantities.now set result }
{
    let m = blocks.records.len();
    let bvalues = block_values(m, blocks.quantities, set);
    let rows = with_rows([0; STEP_PLACES], blocks.records, &bvalues[..m]);
    with_rows(rows, records, values)
}

// The result of a day of so many hours, out of the steps, the blocks' columns, the set and its day.
fn publish_columns(
    day: u8,
    count: usize,
    steps: &Steps,
    blocks: &BlockFronts,
    set: u32,
    found: Day,
    res: &mut [u8],
)
    requires { (day ≤ autumn_hours) × StepsSized steps.now.ends steps.now.sides steps.now.prices steps.now.quantities
        × (get_or steps.now.ends last_hour 0 ≤ length steps.now.records) × HoursPriced found.prices × Buffer count res.old }
    ensures { PublishedFrom day count steps.now blocks.now.records.now blocks.now.sides.now blocks.now.hours.now blocks.now.prices.now
        blocks.now.quantities.now set found res.new }
{
    let n = steps.ends[HOURS] as usize;
    let often = change_weight(day);
    let mut values = [0; STEP_PLACES];
    let mut rests = [0; STEP_PLACES];
    let sums = fill_hours(
        often,
        steps,
        blocks,
        set,
        found.prices,
        &mut values,
        &mut rests,
    );
    let worth = blocks_worth(day, blocks, set);
    let welfare = (sums.value + worth.value).saturating_sub(sums.cost + worth.cost);
    let rows = rows_of(&steps.records[..n], &values[..n], blocks, set);
    let price_column = where_counted(found.prices, often);
    let traded_column = where_counted(found.quantities, often);
    write_result(res, count, welfare, price_column, traded_column, &rows);
}

// The result of a book of so many records on a day of so many hours: its steps, its blocks, the published set and its day.
pub fn publish(
    day: u8,
    count: usize,
    steps: &Steps,
    blocks: &Blocks,
    set: u32,
    found: Day,
    res: &mut [u8],
)
    requires { Publishable day count steps.now blocks.now found res.old }
    ensures { PublishedIn day count steps.now blocks.now set found res.new }
{
    let m = blocks.count;
    let fronts = BlockFronts {
        records: &blocks.records[..m],
        sides: &blocks.sides[..m],
        hours: &blocks.hours[..m],
        prices: &blocks.prices[..m],
        quantities: &blocks.quantities[..m],
    };
    publish_columns(day, count, steps, &fronts, set, found, res);
}
