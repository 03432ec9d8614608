// The hours for the search: the price table of each, the places at which it clears, and its gaps there, row after row; and the hours' three columns.
ghost use Rattle.std.specs.Prelude.{◌≡◌, ℕ, ◌+◌, ◌≤◌, ◌<◌, length, get_or};
ghost use Rattle.rules.specs.Orders.{max_price};
ghost use Rattle.places.specs.Layout.{hour_places, last_place, last_and_above};
ghost use Rattle.places.specs.Hours.{Small, row_width, last_in, HasRows, clears_first, clears_last, gaps_turn, change_often, gives_way_in};
ghost use Rattle.rules.specs.Day.{gives_way};
ghost use Rattle.tables.specs.Tables.{PriceTable};
ghost use Rattle.setup.specs.Setup.{row_places, RowsFit, StepsHeld, RowsAre, Ranged, RangesAre};

use orders::{DaySteps, HourSteps};
use places::layout::{CHANGE, HOUR_LIST, HOURS, LAST, LAST_AND_ABOVE, SHIFTS, TURN};
use roots::gives_way;
use tables::{all_totals, clear_range, fill_gaps, fill_prices};

// The first and the last place at which an hour clears, and the place of its least gap.
#[derive(Drop)]
pub struct Range {
    pub first: usize,
    pub last: usize,
    pub turn: usize,
}

// The same of each hour.
#[derive(Drop)]
pub struct Ranges {
    pub first: [u32; HOURS],
    pub last: [u32; HOURS],
    pub turn: [u32; HOURS],
}

// The price tables of the hours, row after row: of each the places that the blocks can reach, up to most, and the one above it. The others stay as they were.
pub fn fill_tables(steps: &DaySteps, off: [u32; HOURS], most: [u32; HOURS], unit_prices: &mut [u32])
    requires steps { (length steps.now.ends.now ≡ hour_places + 1)
        × StepsHeld steps.now.sides.now steps.now.prices.now steps.now.quantities.now steps.now.ends.now × Small last_place off × Small last_place most }
    requires table { HasRows unit_prices.old × RowsFit (row_width unit_prices.old) most × Small max_price unit_prices.old }
    ensures rows { RowsAre (row_width unit_prices.old) steps.now.sides.now steps.now.prices.now steps.now.quantities.now steps.now.ends.now off most unit_prices.new }
    ensures small { Small max_price unit_prices.new }
{
    let width = unit_prices.len() / HOURS;
    for h in 0..HOURS {
        let from = h * width;
        let to = from + (most[h] as usize) + LAST_AND_ABOVE;
        fill_prices(&steps.hour(h), off[h], &mut unit_prices[from..to]);
    }
}

// The places at which an hour clears, of those up to most, and its gaps there at a price. The range has the place off: there N is 0.
fn fill_hour(
    steps: &HourSteps,
    off: u32,
    most: u32,
    price: u32,
    row: &[u32],
    gap: &mut [u32],
) -> Range
    requires held { (off ≤ most) × (most ≤ last_place) × (price ≤ max_price) × (length gap.old ≡ row_places most) }
    requires table { (length row.now ≡ row_places most) × PriceTable steps.now.sides.now steps.now.prices.now steps.now.quantities.now off row.now }
    ensures fits { (result.first ≤ most) × (result.last ≤ most) × (result.turn ≤ most) }
    ensures ranged { Ranged steps.now.sides.now steps.now.prices.now steps.now.quantities.now off most price
        result.first result.last result.turn row.now gap.new }
{
    let all = all_totals(steps);
    let range = clear_range(all.buys, all.sells, off, most as usize);
    let turn = fill_gaps(row, price, range.first, range.last, gap);
    Range {
        first: range.first,
        last: range.last,
        turn,
    }
}

// The hours' ranges, and their gaps at the prices root, row after row.
pub fn fill_ranges(
    steps: &DaySteps,
    off: [u32; HOURS],
    most: [u32; HOURS],
    root: [u32; HOURS],
    unit_prices: &[u32],
    gap: &mut [u32],
) -> Ranges
    requires held { (length steps.now.ends.now ≡ hour_places + 1)
        × StepsHeld steps.now.sides.now steps.now.prices.now steps.now.quantities.now steps.now.ends.now × Small last_place most × Small max_price root
        × HasRows gap.old × RowsFit (row_width gap.old) most }
    requires within { (h : ℕ) → h < hour_places → get_or off h 0 ≤ get_or most h 0 }
    requires tables { (length unit_prices.now ≡ length gap.old) × RowsAre (row_width gap.old) steps.now.sides.now steps.now.prices.now steps.now.quantities.now steps.now.ends.now off most unit_prices.now }
    ensures small { (length result.first ≡ hour_places) × (length result.last ≡ hour_places) × (length result.turn ≡ hour_places) × Small (last_in gap.old) result.last }
    ensures ranges { RangesAre (row_width gap.old) steps.now.sides.now steps.now.prices.now steps.now.quantities.now steps.now.ends.now off most root
        unit_prices.now gap.new result.first result.last result.turn }
{
    let width = gap.len() / HOURS;
    let mut first = [0; HOURS];
    let mut last = [0; HOURS];
    let mut turn = [0; HOURS];
    for h in 0..HOURS {
        let from = h * width;
        let to = from + (most[h] as usize) + LAST_AND_ABOVE;
        let range = fill_hour(
            &steps.hour(h),
            off[h],
            most[h],
            root[h],
            &unit_prices[from..to],
            &mut gap[from..to],
        );
        first[h] = range.first as u32;
        last[h] = range.last as u32;
        turn[h] = range.turn as u32;
    }
    Ranges { first, last, turn }
}

// The hours' three columns in one list, how often hour 3 counts, and whether prices can give way.
pub fn joined(
    first: [u32; HOURS],
    last: [u32; HOURS],
    turn: [u32; HOURS],
    often: u32,
    edition: u8,
) -> [u32; HOUR_LIST]
    ensures { (clears_first result ≡ first) × (clears_last result ≡ last) × (gaps_turn result ≡ turn) × (change_often result ≡ often) × (gives_way_in result ≡ gives_way edition) }
{
    let mut r = [0; HOUR_LIST];
    r[CHANGE] = often;
    r[SHIFTS] = u32::from(gives_way(edition));
    for h in 0..HOURS {
        r[h] = first[h];
        r[LAST + h] = last[h];
        r[TURN + h] = turn[h];
    }
    r
}
