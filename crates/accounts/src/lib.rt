// The accounts of a book's portfolios under its published outcome, out of the bytes of the result: what each bought, sold, paid and received, and how many
// orders it has; account 0 is the totals, to which every order record is posted. Assumes nothing.
#![tactic(auto)]

ghost use Rattle.std.specs.Prelude.{[], ◌∷◌, ◌≡◌, ℕ, ◌+◌, ◌*◌, ◌≤◌, ◌<◌, length, get_or};
ghost use Rattle.rules.specs.Hour.{by_side};
ghost use Rattle.rules.specs.Day.{autumn_hours};
ghost use Rattle.records.specs.Records.{day_hours, portfolio};
ghost use Rattle.book.specs.Bounds.{most_records, most_blocks};
ghost use Rattle.book.specs.Refusals.{Accepted};
ghost use Rattle.orders.specs.Columns.{side_for, block_side_at, block_hours_at};
ghost use Rattle.result.specs.Result.{price_in};
ghost use Rattle.gains.specs.Gains.{IsResult};
ghost use Rattle.accounts.specs.Layout.{column_count, place_in, account_places};
ghost use Rattle.accounts.specs.Accounts.{step_in, block_in, steps_in, blocks_in, AccountsOf};
ghost use Rattle.accounts.specs.Postings.{Added, Posted, OrdersPosted, CanGrow, StepFits, CountedIn, most_of_step, most_of_block};

use crate::layout::{
    ACCOUNT_PLACES, BOUGHT, ORDERS, PAID, PORTFOLIO_NUMBERS, RECEIVED, SOLD, TOTALS,
};
use chains::chained;
use fields::hours::{change_weight, counted_hours};
use gains::prices_in;
use orders::blocks_of;
use places::cells::{counted_prices, times_of};
use places::limits::price_sum;
use records::{day_hours, first_step, hour_byte, portfolio_of, side_byte};
use result::row_in;

pub mod layout; // where the accounts have what

// The number of account p in a column.
pub fn number_in(accounts: &[u64], column: usize, p: u8) -> u64
    requires { (length accounts.now ≡ account_places) × (column < column_count) }
    ensures { result ≡ get_or accounts.now (place_in column p) 0 }
{
    accounts[PORTFOLIO_NUMBERS * column + usize::from(p)]
}

// A number added in one column, to the portfolio's account and to the totals.
fn add(accounts: &mut [u64], column: usize, portfolio: u8, n: u64)
    requires { CanGrow n accounts.old × (column < column_count) × (1 ≤ portfolio) }
    ensures { Added column portfolio n accounts.old accounts.new }
{
    let start = PORTFOLIO_NUMBERS * column;
    let own = start + usize::from(portfolio);
    accounts[own] += n;
    let all = start + usize::from(TOTALS);
    accounts[all] += n;
}

// The first number for a buy, the second for a sell. Sides: 0 buy, 1 sell.
// One for all types of number would promise less: the rules' by_side is of numbers alone.
fn by_side(side: u8, for_buy: usize, for_sell: usize) -> usize
    ensures { result ≡ by_side (side_for side) for_buy for_sell }
{
    if side == 0 { for_buy } else { for_sell }
}

// An order posted: what it traded, its cash, and itself. A buy is bought and paid, a sell sold and received.
fn post(accounts: &mut [u64], portfolio: u8, side: u8, traded: u64, cash: u64)
    requires { CanGrow (traded + cash + 1) accounts.old × (1 ≤ portfolio) }
    ensures { Posted (side_for side) portfolio traded cash accounts.old accounts.new }
{
    add(accounts, by_side(side, BOUGHT, SOLD), portfolio, traded);
    add(accounts, by_side(side, PAID, RECEIVED), portfolio, cash);
    add(accounts, ORDERS, portfolio, 1);
}

// A book with its result, and the prices as they count: hour 3's so often.
#[derive(Clone, Copy)]
struct Priced<'a> {
    book: &'a [u8],
    res: &'a [u8],
    counted: &'a [u32],
    often: u32,
    ghost counts: { CountedIn book.now res.now counted.now often },
}

// The step of record k posted: its row in its hour, as often as the hour counts, and that at the hour's price.
fn post_step(accounts: &mut [u64], priced: &Priced, k: u16)
    requires { StepFits priced.now.book.now k × CanGrow most_of_step accounts.old }
    ensures { OrdersPosted (day_hours priced.now.book.now) (price_in priced.now.res.now) most_of_step
        (step_in priced.now.book.now priced.now.res.now k ∷ []) accounts.old accounts.new }
{
    let book = priced.book;
    let row = u64::from(row_in(priced.res, k));
    let hour = usize::from(hour_byte(book, k) - 1);
    let traded = row * times_of(hour, priced.often);
    let cash = row * u64::from(priced.counted[hour]);
    post(
        accounts,
        portfolio_of(book, k),
        side_byte(book, k),
        traded,
        cash,
    );
}

// The steps posted, along their chain.
fn post_steps(accounts: &mut [u64], priced: &Priced)
    requires { Accepted priced.now.book.now × CanGrow (most_of_step * most_records) accounts.old }
    ensures { OrdersPosted (day_hours priced.now.book.now) (price_in priced.now.res.now) (most_of_step * most_records)
        (steps_in priced.now.book.now priced.now.res.now) accounts.old accounts.new }
{
    for k in chained(priced.book, first_step(priced.book)) {
        post_step(accounts, priced, k);
    }
}

// The block of record k, with its side and hours, posted: its row in each of its counted hours, and that at their prices.
fn post_block(accounts: &mut [u64], priced: &Priced, k: u16, side: u8, hours: u32)
    requires { (day_hours priced.now.book.now ≤ autumn_hours) × (side ≡ block_side_at priced.now.book.now k)
        × (hours ≡ block_hours_at priced.now.book.now k) × (1 ≤ portfolio priced.now.book.now k) × CanGrow most_of_block accounts.old }
    ensures { OrdersPosted (day_hours priced.now.book.now) (price_in priced.now.res.now) most_of_block
        (block_in priced.now.book.now priced.now.res.now k ∷ []) accounts.old accounts.new }
{
    let book = priced.book;
    let row = u64::from(row_in(priced.res, k));
    let traded = row * u64::from(counted_hours(day_hours(book), hours));
    let cash = row * u64::from(price_sum(priced.counted, hours));
    post(accounts, portfolio_of(book, k), side, traded, cash);
}

// The blocks posted, in their order.
fn post_blocks(accounts: &mut [u64], priced: &Priced)
    requires { Accepted priced.now.book.now × CanGrow (most_of_block * most_blocks) accounts.old }
    ensures { OrdersPosted (day_hours priced.now.book.now) (price_in priced.now.res.now) (most_of_block * most_blocks)
        (blocks_in priced.now.book.now priced.now.res.now) accounts.old accounts.new }
{
    let blocks = blocks_of(priced.book);
    for i in 0..blocks.count {
        post_block(
            accounts,
            priced,
            blocks.records[i],
            blocks.sides[i],
            blocks.hours[i],
        );
    }
}

// The accounts of all portfolios and, as account 0, the totals of all orders.
pub fn accounts_of(book: &[u8], res: &[u8]) -> [u64; ACCOUNT_PLACES]
    requires { IsResult book.now res.now }
    ensures { AccountsOf book.now res.now result }
{
    let often = change_weight(day_hours(book));
    let counted = counted_prices(prices_in(res), often);
    let priced = Priced {
        book,
        res,
        counted: &counted,
        often,
    };
    let mut accounts = [0; ACCOUNT_PLACES];
    post_steps(&mut accounts, &priced);
    post_blocks(&mut accounts, &priced);
    accounts
}
