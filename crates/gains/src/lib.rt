// What each block of a book gains under its published outcome, out of the bytes of the result. Assumes nothing.
#![tactic(auto)]

ghost use Rattle.std.specs.Prelude.{◌≡◌, ◌≤◌};
ghost use Rattle.rules.specs.Orders.{max_price};
ghost use Rattle.rules.specs.Day.{autumn_hours};
ghost use Rattle.places.specs.Hours.{DayPrices};
ghost use Rattle.gains.specs.Gains.{prices_in, gain_among, gain_column, IsResult};

use fields::hours::{change_weight, counted_hours};
use orders::blocks_of;
use orders::layout::{BLOCK_PLACES, HOURS, LAST_HOUR_BYTE};
use places::cells::counted_prices;
use places::limits::price_sum;
use records::day_hours;
use result::{price_in, row_in};

// The price of each hour in a result.
pub fn prices_in(res: &[u8]) -> [u32; HOURS]
    ensures { result ≡ prices_in res.now }
{
    let mut prices = [0; HOURS];
    for h in 0..LAST_HOUR_BYTE {
        prices[usize::from(h)] = price_in(res, h + 1);
    }
    prices
}

// What a block gains at the prices as they count: its row times the distance between the price sum and its price times its hour count.
fn gain_of(day: u8, prices: &[u32], hours: u32, price: u32, row: u32) -> u64
    requires { DayPrices prices.now × (day ≤ autumn_hours) × (price ≤ max_price) }
    ensures { result ≡ gain_among day prices.now hours price row }
{
    let limit = price * counted_hours(day, hours);
    u64::from(row) * u64::from(price_sum(prices, hours).abs_diff(limit))
}

// What each block gains, in their order, and then zeros; one that is left out gains nothing.
pub fn gains_of(book: &[u8], res: &[u8]) -> [u64; BLOCK_PLACES]
    requires { IsResult book.now res.now }
    ensures { result ≡ gain_column book.now res.now }
{
    let day = day_hours(book);
    let counted = counted_prices(prices_in(res), change_weight(day));
    let blocks = blocks_of(book);
    let mut gains = [0; BLOCK_PLACES];
    for i in 0..blocks.count {
        let row = row_in(res, blocks.records[i]);
        gains[i] = gain_of(day, &counted, blocks.hours[i], blocks.prices[i], row);
    }
    gains
}
