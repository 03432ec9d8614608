// The price of an hour from its columns and N: the totals of its steps at a price, and the two ends of the clearing prices by bisection.
ghost use Rattle.std.specs.Prelude.{◌≡◌, ℕ, ◌+◌, ◌^◌, ◌≤◌, ltb, leb};
ghost use Rattle.rules.specs.Hour.{by_side, when};
ghost use Rattle.orders.specs.Columns.{side_for};
ghost use Rattle.pricing.specs.Curves.{TotalsOf, TotalsAt, hour_with, LeastCovered};
ghost use Rattle.pricing.specs.Answers.{AnswerOf};

use crate::{BIAS, HourPrice};
use fields::MAX_PRICE;
use orders::HourSteps;

// What steps buy strictly above one price, and sell at or below another, or the same.
#[derive(Drop)]
pub struct Totals {
    pub over: u32,
    pub to: u32,
    pub above: u64,
    pub upto: u64,
}

impl Totals {
    // One order more; with no branch, which would be hard to foretell.
    fn add(mut self, side: u8, price: u32, quantity: u32) -> Totals
        requires { (self.above ≤ 2 ^ 62) × (self.upto ≤ 2 ^ 62) }
        ensures { (result.over ≡ self.over) × (result.to ≡ self.to) × (result.above ≡ self.above + when (ltb self.over price) (by_side (side_for side) quantity 0)) × (result.upto ≡ self.upto + when (leb price self.to) (by_side (side_for side) 0 quantity)) }
    {
        let buys = side == 0;
        let wide = u64::from(quantity);
        self.above += u64::from(buys & (self.over < price)) * wide;
        self.upto += u64::from(!buys & (price <= self.to)) * wide;
        self
    }
}

// The totals of all steps of an hour, one order at a time: what they buy over one price, and what they sell up to another.
pub fn totals_between(steps: &HourSteps, over: u32, to: u32) -> Totals
    ensures { TotalsOf steps.now.sides.now steps.now.prices.now steps.now.quantities.now over to result.above result.upto }
{
    let mut totals = Totals {
        over,
        to,
        above: 0,
        upto: 0,
    };
    for i in 0..steps.sides.len() {
        totals = totals.add(steps.sides[i], steps.prices[i], steps.quantities[i]);
    }
    totals
}

// The totals at one price.
pub fn totals_at(steps: &HourSteps, price: u32) -> Totals
    ensures { TotalsAt steps.now.sides.now steps.now.prices.now steps.now.quantities.now price result.above result.upto }
{
    totals_between(steps, price, price)
}

// The least price at which the steps and N cover a margin, by bisection; the highest price where they do at none below it.
pub fn least_covered(steps: &HourSteps, net: u32, margin: u32) -> u32
    ensures { (h : ℕ) → LeastCovered margin (hour_with h steps.now.sides.now steps.now.prices.now steps.now.quantities.now net) result }
{
    let mut low = 1;
    let mut high = MAX_PRICE;
    while low < high {
        let middle = (low + high) / 2;
        let totals = totals_at(steps, middle);
        if totals.above + BIAS + u64::from(margin) <= totals.upto + u64::from(net) {
            high = middle;
        } else {
            low = middle + 1;
        }
    }
    low
}

// The answer of an hour: none where N exceeds all buys together, or -N all sells; else its two ends and the middle.
pub fn answer_of(steps: &HourSteps, net: u32) -> Option<HourPrice>
    ensures { AnswerOf steps.now.sides.now steps.now.prices.now steps.now.quantities.now net result }
{
    let lowest = totals_at(steps, 0);
    let highest = totals_at(steps, MAX_PRICE);
    if lowest.above + BIAS < u64::from(net) {
        return None;
    }
    if highest.upto + u64::from(net) < BIAS {
        return None;
    }
    let low = least_covered(steps, net, 0);
    let high = least_covered(steps, net, 1);
    Some(HourPrice {
        low,
        high,
        price: (low + high) / 2,
    })
}
