// Prices when wind is uncertain: from a list of steps whose quantities are known from a low to a high figure to the least and greatest
// middle price of their hour, without blocks. Both are met at a corner: buys low and sells high, or buys high and sells low. Assumes nothing.
#![tactic(auto)]

ghost use Rattle.std.specs.Prelude.{◌≡◌, ◌≤◌, ◌<◌, true, MatchOption};
ghost use Rattle.fields.specs.Tests.{some_below};
ghost use Rattle.range.specs.Layout.{most_entries};
ghost use Rattle.range.specs.Range.{entry_at, entry_fits, wrong_size, out_of_range, range_of};
ghost use Rattle.range.specs.Corners.{side_number, least_quantity, greatest_quantity, Decoded, PriceOf};

use crate::layout::{
    ENTRY_SIZE, HIGH_OFFSET, LOW_OFFSET, MOST_ENTRIES, MOST_FIGURE, PRICE_OFFSET, SIDE_OFFSET,
};
use book::{Refusal, refuse};
use fields::MAX_PRICE;
use orders::HourSteps;
use pricing::BIAS;
use pricing::hour::answer_of;
use records::{LAST_SIDE, u32_at};

mod layout; // where a list's bytes have what

// The least and greatest middle price over all quantities between.
#[derive(Clone, Copy, Debug, PartialEq, Eq)]
pub struct PriceRange {
    pub least: u32,
    pub greatest: u32,
}

// An entry of a list. Price in cents per MWh, figures in tenths of a MW.
#[derive(Clone, Copy)]
struct Entry {
    side: u32,
    price: u32,
    low: u32,
    high: u32,
}

// A list's entries as columns: sides (0 buy, 1 sell), prices, and the quantities at the corner of the least and of the greatest price.
#[derive(Drop)]
struct Entries {
    sides: [u8; MOST_ENTRIES],
    prices: [u32; MOST_ENTRIES],
    least: [u32; MOST_ENTRIES],
    greatest: [u32; MOST_ENTRIES],
}

// Whether a list is too long, or not a multiple of 16 bytes.
fn has_wrong_size(list: &[u8]) -> bool
    ensures { result ≡ wrong_size list.now }
{
    (ENTRY_SIZE * MOST_ENTRIES < list.len()) | (list.len() % ENTRY_SIZE != 0)
}

// Entry i of a list.
fn entry_at(list: &[u8], i: usize) -> Entry
    requires { i < most_entries }
    ensures { result ≡ entry_at list.now i }
{
    let at = ENTRY_SIZE * i;
    Entry {
        side: u32_at(list, (at + SIDE_OFFSET) as u32),
        price: u32_at(list, (at + PRICE_OFFSET) as u32),
        low: u32_at(list, (at + LOW_OFFSET) as u32),
        high: u32_at(list, (at + HIGH_OFFSET) as u32),
    }
}

impl Entry {
    // Whether its fields are in range.
    fn fits(self) -> bool
        ensures { result ≡ entry_fits self }
    {
        let priced = (1 <= self.price) & (self.price <= MAX_PRICE);
        let ordered = self.low <= self.high;
        (self.side <= LAST_SIDE)
            & priced
            & (self.low <= MOST_FIGURE)
            & (self.high <= MOST_FIGURE)
            & ordered
    }

    // The number for its side: 0 buy, 1 sell.
    fn side_number(self) -> u8
        ensures { result ≡ side_number self }
    {
        u8::from(self.side != 0)
    }

    // Its quantity where the price is least: a buy's low, a sell's high.
    fn least_quantity(self) -> u32
        ensures { result ≡ least_quantity self }
    {
        if self.side == 0 { self.low } else { self.high }
    }

    // Its quantity where the price is greatest: a buy's high, a sell's low.
    fn greatest_quantity(self) -> u32
        ensures { result ≡ greatest_quantity self }
    {
        if self.side == 0 { self.high } else { self.low }
    }
}

// The first entries of a list, count of them, as columns; none where a field is out of range.
fn entries_of(list: &[u8], count: usize) -> Option<Entries>
    requires { count ≤ most_entries }
    ensures { MatchOption result (some_below count (out_of_range list.now) ≡ true)
        (λ found. Decoded list.now count found.sides found.prices found.least found.greatest) }
{
    let mut sides = [0; MOST_ENTRIES];
    let mut prices = [0; MOST_ENTRIES];
    let mut least = [0; MOST_ENTRIES];
    let mut greatest = [0; MOST_ENTRIES];
    for i in 0..count {
        let entry = entry_at(list, i);
        if !entry.fits() {
            return None;
        }
        sides[i] = entry.side_number();
        prices[i] = entry.price;
        least[i] = entry.least_quantity();
        greatest[i] = entry.greatest_quantity();
    }
    Some(Entries {
        sides,
        prices,
        least,
        greatest,
    })
}

// The middle price of an hour's steps, without blocks; it always clears.
fn price_of(steps: &HourSteps) -> u32
    ensures { PriceOf steps.now.sides.now steps.now.prices.now steps.now.quantities.now result }
{
    match answer_of(steps, BIAS as u32) {
        Some(found) => found.price,
        None => 0,
    }
}

// The least and greatest middle price over all quantities between a list's low and high figures, or 17.
pub fn price_range(list: &[u8]) -> Result<PriceRange, Refusal>
    ensures { result ≡ range_of list.now }
{
    refuse(has_wrong_size(list), Refusal::WrongList)?;
    let count = list.len() / ENTRY_SIZE;
    let Some(entries) = entries_of(list, count) else {
        return Err(Refusal::WrongList);
    };
    let sides = &entries.sides[..count];
    let prices = &entries.prices[..count];
    let least = price_of(&HourSteps {
        sides,
        prices,
        quantities: &entries.least[..count],
    });
    let greatest = price_of(&HourSteps {
        sides,
        prices,
        quantities: &entries.greatest[..count],
    });
    Ok(PriceRange { least, greatest })
}
