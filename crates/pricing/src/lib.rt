// Pricing one hour under a set of blocks: layer 2, above the reader.
#![tactic(auto)]

ghost use Rattle.std.specs.Prelude.{◌≡◌, ◌^◌, ◌≤◌, leb};
ghost use Rattle.book.specs.Refusals.{Accepted};
ghost use Rattle.rules.specs.Hour.{pricing};
ghost use Rattle.rules.specs.Day.{steps_in};
ghost use Rattle.records.specs.Layout.{last_hour};
ghost use Rattle.orders.specs.Layout.{block_places};
ghost use Rattle.orders.specs.Bridge.{day_from};
ghost use Rattle.pricing.specs.Curves.{bias};
ghost use Rattle.pricing.specs.Answers.{answer_for, NetOf, has_hour, hour_answer};

use crate::blocks::trades_of;
use crate::hour::answer_of;
use book::{Refusal, read, refuse};
use fields::hours::is_counted;
use orders::layout::BLOCK_PLACES;
use orders::{blocks_of, steps_of};
use records::{LAST_HOUR, day_hours};

pub mod blocks;
pub mod execution;
pub mod hour;

// N is held as one number that is never negative: this, plus block sales, less block purchases.
pub const BIAS: u64 = 2097152;

// The bits of a set, one for each block that a book may have.
const SET_BITS: u32 = BLOCK_PLACES as u32;

// What an hour that clears is priced at: L, H and the price.
#[derive(Clone, Copy, Debug, PartialEq, Eq)]
pub struct HourPrice {
    pub low: u32,
    pub high: u32,
    pub price: u32,
}

// Whether a day of so many hours has the hour.
fn has_hour(day: u8, hour: u32) -> bool
    ensures { result ≡ has_hour day hour }
{
    (1 <= hour) & (hour <= LAST_HOUR) & is_counted(day, hour)
}

// Whether the set names a block position that is not there: a bit at or past the count.
fn names_absent(set: u32, count: u32) -> bool
    ensures { count ≤ block_places → result ≡ leb (2 ^ count) set }
{
    if count < SET_BITS {
        (set >> count) != 0
    } else {
        false
    }
}

// N of an hour under a set of an accepted book's blocks: the bias, plus block sales, less block purchases.
fn net_in(book: &[u8], set: u32, hour: u32) -> u32
    requires { Accepted book.now × (1 ≤ hour) × (hour ≤ last_hour) }
    ensures { NetOf book.now set hour result }
{
    let found = blocks_of(book);
    let count = found.count;
    let sides = found.sides;
    let hours = found.hours;
    let quantities = found.quantities;
    let trades = trades_of(
        &sides[..count],
        &hours[..count],
        &quantities[..count],
        set,
        hour,
    );
    (BIAS + trades.sales - trades.buys) as u32
}

// The answer of an hour of an accepted book, for N: none where it does not clear.
fn answer_in(book: &[u8], hour: u32, net: u32) -> Option<HourPrice>
    requires { Accepted book.now × (1 ≤ hour) × (hour ≤ last_hour) }
    ensures { result ≡ answer_for (pricing (record { steps = steps_in hour (day_from book.now).steps; block_sales = net; block_buys = bias })) }
{
    let steps = steps_of(book);
    answer_of(&steps.hour((hour - 1) as usize), net)
}

// The price of one hour under a set of blocks, the lowest bit for the first block of the chain: the book's own refusals, then 8, then the rules' answer,
// which is none where the hour does not clear.
pub fn price(book: &[u8], set: u32, hour: u32) -> Result<Option<HourPrice>, Refusal>
    ensures { result ≡ hour_answer book.now set hour }
{
    let counted = read(book)?;
    let is_wrong = !has_hour(day_hours(book), hour) | names_absent(set, u32::from(counted.blocks));
    refuse(is_wrong, Refusal::WrongCall)?;
    Ok(answer_in(book, hour, net_in(book, set, hour)))
}
