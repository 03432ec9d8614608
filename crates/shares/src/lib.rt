// The executed quantities of an hour at its price: strictly better steps in full, those at the price by fair shares of their side's amount, the others
// nothing.
#![tactic(auto)]

ghost use Rattle.std.specs.Prelude.{◌≡◌, ◌+◌, ◌-◌, ◌*◌, ◌/◌, ◌%◌, ◌^◌, ◌≤◌, ◌<◌, map, eqb, length};
ghost use Rattle.rules.specs.Hour.{by_side, when, total};
ghost use Rattle.orders.specs.Columns.{side_for, steps_from};
ghost use Rattle.pricing.specs.Curves.{QuantitiesInRange};
ghost use Rattle.shares.specs.Shares.{AmountsOf, AmountsFit, AmountsHeld, step_for, first_share, buy_floor, sell_floor, SharedOut};

use crate::leftover::give_leftover;
use orders::HourSteps;
use pricing::BIAS;
use pricing::hour::totals_at;

pub mod leftover;

// What the steps of one side at the price get together, and what they hold.
#[derive(Clone, Copy)]
pub struct Portion {
    pub amount: u64,
    pub held: u64,
    ghost within: { amount ≤ held },
}

// What the buys at the price get and hold, and the same of the sells.
#[derive(Clone, Copy)]
pub struct Amounts {
    pub buys: Portion,
    pub sells: Portion,
}

// What is left of the amounts.
#[derive(Drop)]
pub struct Left {
    pub buys: u64,
    pub sells: u64,
}

// The amounts of an hour at a price: for the buys at it what they hold or what the sells and N allow, for the sells what they hold or what then
// balances, the lesser.
pub fn amounts_at(steps: &HourSteps, net: u32, price: u32) -> Amounts
    requires { 1 ≤ price }
    ensures { AmountsOf steps.now.sides.now steps.now.prices.now steps.now.quantities.now net price result.buys.amount result.buys.held
        result.sells.amount result.sells.held }
{
    let at = totals_at(steps, price);
    let before = totals_at(steps, price - 1);
    let bought = at.above + BIAS;
    let sold = at.upto + u64::from(net);
    let sold_below = before.upto + u64::from(net);
    let demand = before.above.saturating_sub(at.above);
    let offer = at.upto.saturating_sub(before.upto);
    let buys = demand.min(sold.saturating_sub(bought));
    let sells = offer.min((bought + buys).saturating_sub(sold_below));
    Amounts {
        buys: Portion {
            amount: buys,
            held: demand,
        },
        sells: Portion {
            amount: sells,
            held: offer,
        },
    }
}

impl Portion {
    // What a step that holds so much gets, rounded down.
    fn quotient(self, own: u32) -> u32
        requires { self.held < 2 ^ 31 }
        ensures { result ≡ own * self.amount / self.held }
    {
        if self.held == 0 {
            return 0;
        }
        (u64::from(own) * self.amount / self.held) as u32
    }

    // What is left of that.
    fn rest_of(self, own: u32) -> u32
        requires { (0 < self.held) × (self.held < 2 ^ 31) }
        ensures { result ≡ own * self.amount % self.held }
    {
        (u64::from(own) * self.amount % self.held) as u32
    }
}

impl Amounts {
    // What a step gets before the leftover tenths are given.
    fn first(self, price: u32, side: u8, limit: u32, quantity: u32) -> u32
        requires { AmountsFit self.buys.amount self.buys.held self.sells.amount self.sells.held }
        ensures { result ≡ first_share price self.buys.amount self.buys.held self.sells.amount self.sells.held (step_for side limit quantity) }
    {
        if side == 0 {
            if price < limit {
                return quantity;
            }
            if limit == price {
                return self.buys.quotient(quantity);
            }
            return 0;
        }
        if limit < price {
            return quantity;
        }
        if limit == price {
            return self.sells.quotient(quantity);
        }
        0
    }
}

impl Left {
    // What is left after a step that got so much.
    fn after(mut self, price: u32, side: u8, limit: u32, got: u32) -> Left
        ensures { (result.buys ≡ self.buys - when (eqb limit price) (by_side (side_for side) got 0)) × (result.sells ≡ self.sells - when (eqb limit price) (by_side (side_for side) 0 got)) }
    {
        if limit == price {
            if side == 0 {
                self.buys = self.buys.saturating_sub(u64::from(got));
            } else {
                self.sells = self.sells.saturating_sub(u64::from(got));
            }
        }
        self
    }
}

// What each step gets before the leftover tenths are given, into out, and what is left of the amounts.
fn round_down(steps: &HourSteps, price: u32, amounts: Amounts, out: &mut [u32]) -> Left
    requires { (length steps.now.sides.now ≡ length out.old)
        × AmountsFit amounts.buys.amount amounts.buys.held amounts.sells.amount amounts.sells.held }
    ensures first { out.new ≡ map (first_share price amounts.buys.amount amounts.buys.held amounts.sells.amount amounts.sells.held)
        (steps_from 0 steps.now.sides.now steps.now.prices.now steps.now.quantities.now) }
    ensures buys { result.buys ≡ amounts.buys.amount - total (buy_floor price amounts.buys.amount amounts.buys.held)
        (steps_from 0 steps.now.sides.now steps.now.prices.now steps.now.quantities.now) }
    ensures sells { result.sells ≡ amounts.sells.amount - total (sell_floor price amounts.sells.amount amounts.sells.held)
        (steps_from 0 steps.now.sides.now steps.now.prices.now steps.now.quantities.now) }
{
    let mut left = Left {
        buys: amounts.buys.amount,
        sells: amounts.sells.amount,
    };
    for i in 0..steps.sides.len() {
        let got = amounts.first(price, steps.sides[i], steps.prices[i], steps.quantities[i]);
        out[i] = got;
        left = left.after(price, steps.sides[i], steps.prices[i], got);
    }
    left
}

// Each step's quantity into out, in the columns' order; rests is lent to work in. Where no tenth is left over, one pass is all.
pub fn share_out(
    steps: &HourSteps,
    price: u32,
    amounts: Amounts,
    out: &mut [u32],
    rests: &mut [u32],
)
    requires { QuantitiesInRange steps.now.quantities.now × (length steps.now.sides.now ≡ length out.old)
        × (length steps.now.sides.now ≡ length rests.old)
        × AmountsHeld steps.now.sides.now steps.now.prices.now steps.now.quantities.now price amounts.buys.amount amounts.buys.held
        amounts.sells.amount amounts.sells.held }
    ensures { SharedOut steps.now.sides.now steps.now.prices.now steps.now.quantities.now price amounts.buys.amount
        amounts.sells.amount out.new }
{
    let left = round_down(steps, price, amounts, out);
    give_leftover(true, steps, price, amounts.buys, left.buys, out, rests);
    give_leftover(false, steps, price, amounts.sells, left.sells, out, rests);
}
