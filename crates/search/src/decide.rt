// All blocks are decided: whether the set becomes the best, with its day.
ghost use Rattle.std.specs.Prelude.{◌≡◌, ◌*◌, ◌≤◌, ◌<◌, length};
ghost use Rattle.book.specs.Bounds.{most_blocks};
ghost use Rattle.places.specs.Layout.{most_loss, last_limit, hour_list_size};
ghost use Rattle.places.specs.Hours.{change_often};
ghost use Rattle.places.specs.Blocks.{BlocksSized};
ghost use Rattle.shift.specs.Columns.{ShiftSized};
ghost use Rattle.branches.specs.Meaning.{Sized};
ghost use Rattle.branches.specs.Tables.{seen};
ghost use Rattle.search.specs.Meaning.{StepsFit, hour_steps, limit_at, Held, Kept, FoundAt, ShiftDecidedIn, Decided};

use crate::{Best, Day};
use branches::Node;
use orders::DaySteps;
use places::cells::{counted_gaps, counted_prices, prices_at, shifted_prices};
use places::layout::{CHANGE, FIRST, HOURS, LAST, SHIFTS, TURN};
use places::limits::keeps_limits;
use places::tables::Tables;
use places::trades::{hours_traded, set_trades};
use shift::shift_of;

// What a branch's completions must lose less than: the best's loss, or one more where its left-out blocks come to less, so that a tie may still be settled.
pub fn limit_at(limit: u64, tie: u64, here: u64) -> u64
    requires { limit ≤ 2 * last_limit }
    ensures { result ≡ limit_at limit tie here }
{
    if here < tie {
        return limit + 1;
    }
    limit
}

// The set as the best, with what it loses and its day at these prices.
fn found_at(
    tables: &Tables,
    steps: &DaySteps,
    node: Node,
    limit: u64,
    fuel: u64,
    prices: [u32; HOURS],
) -> Best
    requires { BlocksSized tables.now.blocks.now × (tables.now.count ≤ most_blocks) × StepsFit steps.now }
    ensures { FoundAt tables.now.blocks.now tables.now.count (hour_steps steps.now) node limit fuel prices result }
{
    let trades = set_trades(tables.blocks, tables.count as usize, node.set);
    let quantities = hours_traded(steps, trades, prices);
    Best {
        limit,
        tie: node.tie,
        fuel,
        set: node.set,
        day: Day { prices, quantities },
    }
}

// The set at the shift nearest the middle at which its blocks keep their limits; the best as it was where there is none.
fn decide_at_shift(tables: &Tables, steps: &DaySteps, node: Node, limit: u64, best: Best) -> Best
    requires { ShiftSized tables.now.unit_prices.now tables.now.blocks.now tables.now.count node.places (change_often tables.now.hours.now)
        × (length tables.now.hours.now ≡ hour_list_size) × BlocksSized tables.now.blocks.now × StepsFit steps.now × (node.tie ≤ most_loss) × Held best
        × (limit < limit_at best.limit best.tie node.tie) }
    ensures kept { Kept 0 best result }
    ensures decided { ShiftDecidedIn tables.now.unit_prices.now tables.now.hours.now tables.now.blocks.now tables.now.count
        (hour_steps steps.now) node limit best result }
{
    let Some(shift) = shift_of(tables, node.set, node.places, tables.hours[CHANGE]) else {
        return best;
    };
    let shifted = shifted_prices(tables.unit_prices, node.places, shift);
    found_at(tables, steps, node, limit, best.fuel, shifted)
}

// All blocks are decided: the set becomes the best where it is lawful and loses less, with its day. The middle prices first: another shift is looked for
// only where they miss a limit and prices can give way.
pub fn decide(tables: &Tables, steps: &DaySteps, node: Node, best: Best) -> Best
    requires { Sized (seen tables.now) × (length tables.now.hours.now ≡ hour_list_size) × StepsFit steps.now × (node.loss ≤ most_loss)
        × (node.tie ≤ most_loss) × Held best }
    ensures kept { Kept 0 best result }
    ensures decided { Decided (seen tables.now) (hour_steps steps.now) node best result }
{
    let hours = tables.hours;
    let often = hours[CHANGE];
    let gaps = counted_gaps(
        tables.gap,
        &hours[FIRST..LAST],
        &hours[LAST..TURN],
        node.places,
        often,
    );
    let Some(sum) = gaps else {
        return best;
    };
    let total = node.loss + sum;
    if limit_at(best.limit, best.tie, node.tie) <= total {
        return best;
    }
    let middles = prices_at(tables.unit_prices, node.places);
    let counted = counted_prices(middles, often);
    if keeps_limits(
        tables.blocks,
        tables.count as usize,
        node.set,
        &counted,
        &counted,
    ) {
        return found_at(tables, steps, node, total, best.fuel, middles);
    }
    if hours[SHIFTS] == 0 {
        return best;
    }
    decide_at_shift(tables, steps, node, total, best)
}
