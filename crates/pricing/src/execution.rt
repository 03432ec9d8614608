// What is traded in an hour at its price.
ghost use Rattle.std.specs.Prelude.{◌≤◌};
ghost use Rattle.pricing.specs.Curves.{bias, QuantitiesInRange, TradedAt};

use crate::hour::totals_between;
use orders::HourSteps;

// What is traded in an hour at a clearing price, with what the blocks sell and buy.
pub fn traded_at(steps: &HourSteps, sales: u32, buys: u32, price: u32) -> u32
    requires { QuantitiesInRange steps.now.quantities.now × (buys ≤ bias) }
    ensures { TradedAt steps.now.sides.now steps.now.prices.now steps.now.quantities.now sales buys price result }
{
    let totals = totals_between(steps, price.saturating_sub(1), price);
    let bought = totals.above + u64::from(buys);
    let sold = totals.upto + u64::from(sales);
    bought.min(sold) as u32
}
