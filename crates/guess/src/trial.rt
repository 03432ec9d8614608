// A set tried: whether every hour clears under it, what it loses, and which of its blocks is to be left out of those that miss their limits.
ghost use Rattle.std.specs.Prelude.{◌≤◌, ◌<◌, ◌≡◌, IfSome};
ghost use Rattle.book.specs.Bounds.{most_blocks};
ghost use Rattle.places.specs.Layout.{most_loss, most_place};
ghost use Rattle.places.specs.Hours.{Small, DayPrices};
ghost use Rattle.places.specs.Blocks.{BlocksSized};
ghost use Rattle.guess.specs.Guess.{Held, Safe};
ghost use Rattle.guess.specs.Urgency.{missed_by, block_size, urgency_by, urgency_in};

use places::added::moved_where;
use places::cells::{counted_gaps, counted_prices, prices_at};
use places::layout::{
    AGAINST, BLOCK_ROWS, CHANGE, FIRST, GAIN, HOURS, LAST, LIMIT, MOST_BLOCKS, RUNS, SIDE, TURN,
};
use places::limits::price_sum;
use places::numbers::choose;
use places::tables::Tables;

// The rules: the block that misses its limit by most is left out first, the one that gains least at the root prices, the smallest, the largest.
#[derive(Clone, Copy)]
pub enum Rule {
    ByMiss,
    ByGain,
    BySmallness,
    BySize,
}

// How soon a block is left out by a rule.
fn urgency(rule: Rule, miss: u32, gain: u32, size: u32) -> u32
    ensures { result ≡ urgency_by rule miss gain size }
{
    match rule {
        Rule::ByMiss => miss,
        Rule::ByGain => u32::MAX - gain,
        Rule::BySmallness => u32::MAX - size,
        Rule::BySize => size,
    }
}

// By how much a block misses its limit at prices as they count, 0 where it keeps it.
fn miss_of(side: u32, hours: u32, limit: u32, prices: &[u32]) -> u32
    requires { DayPrices prices.now }
    ensures { result ≡ missed_by side hours limit prices.now }
{
    let sum = price_sum(prices, hours);
    if side == 0 {
        sum.saturating_sub(limit)
    } else {
        limit.saturating_sub(sum)
    }
}

// What block i trades in all its hours.
fn size_of(blocks: &[u32], i: usize) -> u32
    requires { BlocksSized blocks.now × (i < most_blocks) }
    ensures { result ≡ block_size blocks.now i }
{
    let row = BLOCK_ROWS + HOURS * i;
    let mut sum: u32 = 0;
    for h in 0..HOURS {
        sum += blocks[row + h];
    }
    sum
}

// How soon block i is left out of a set by a rule, 0 where it is not taken or keeps its limit.
fn urgency_of(rule: Rule, blocks: &[u32], i: usize, taken: bool, prices: &[u32]) -> u32
    requires { BlocksSized blocks.now × (i < most_blocks) × DayPrices prices.now }
    ensures { result ≡ urgency_in rule blocks.now i taken prices.now }
{
    if !taken {
        return 0;
    }
    let miss = miss_of(
        blocks[SIDE + i],
        blocks[RUNS + i],
        blocks[LIMIT + i],
        prices,
    );
    if miss == 0 {
        return 0;
    }
    urgency(rule, miss, blocks[GAIN + i], size_of(blocks, i))
}

// The block of a set to be left out first of those that miss their limits, if any does.
fn missing_in(
    rule: Rule,
    blocks: &[u32],
    count: usize,
    set: [bool; MOST_BLOCKS],
    prices: &[u32],
) -> Option<usize>
    requires { BlocksSized blocks.now × (count ≤ most_blocks) × DayPrices prices.now }
    ensures { IfSome result (λ worst. worst < most_blocks) }
{
    let mut worst = None;
    let mut most: u32 = 0;
    for i in 0..count {
        let urgent = urgency_of(rule, blocks, i, set[i], prices);
        if most < urgent {
            worst = Some(i);
            most = urgent;
        }
    }
    worst
}

// What the decisions of a set lose at the root prices.
fn losses_of(blocks: &[u32], count: usize, set: [bool; MOST_BLOCKS]) -> u64
    requires { BlocksSized blocks.now × (count ≤ most_blocks) }
    ensures { result ≤ most_loss }
{
    let mut sum: u64 = 0;
    for i in 0..count {
        sum += u64::from(choose(set[i], blocks[AGAINST + i], blocks[GAIN + i]));
    }
    sum
}

// The hours' places under a set: a sell moves them on where it is taken, a buy where it is left out.
fn places_of(blocks: &[u32], count: usize, set: [bool; MOST_BLOCKS]) -> [u32; HOURS]
    requires { BlocksSized blocks.now × (count ≤ most_blocks) }
    ensures { Small most_place result }
{
    let mut places = [0; HOURS];
    for i in 0..count {
        let buys = blocks[SIDE + i] == 0;
        // A variable of its own: the borrow checker covers no call whose result is laid in an array.
        let more = moved_where(set[i] != buys, places, blocks, i);
        places = more;
    }
    places
}

// What is found of a set under which every hour clears: each of its blocks keeps its limit, and it loses so much; or this one is to be left out.
#[derive(Drop)]
pub enum Trial {
    Keeps(u64),
    Misses(usize),
}

// A set tried by a rule; none where an hour does not clear.
pub fn try_set(rule: Rule, tables: &Tables, set: [bool; MOST_BLOCKS]) -> Option<Trial>
    requires { Held tables.now }
    ensures { IfSome result Safe }
{
    let hours = tables.hours;
    let blocks = tables.blocks;
    let count = tables.count as usize;
    let often = hours[CHANGE];
    let places = places_of(blocks, count, set);
    let gaps = counted_gaps(
        tables.gap,
        &hours[FIRST..LAST],
        &hours[LAST..TURN],
        places,
        often,
    )?;
    let prices = counted_prices(prices_at(tables.unit_prices, places), often);
    Some(match missing_in(rule, blocks, count, set, &prices) {
        Some(worst) => Trial::Misses(worst),
        None => Trial::Keeps(losses_of(blocks, count, set) + gaps),
    })
}
