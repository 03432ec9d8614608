// The setup of the search: from a book's decoded columns to the tables of the hours and the columns of the blocks. Assumes nothing.
#![tactic(auto)]

ghost use Rattle.std.specs.Prelude.{◌≡◌, length, ◌+◌, ◌≤◌};
ghost use Rattle.places.specs.Layout.{hour_places, last_place, last_and_above};
ghost use Rattle.places.specs.Hours.{Small, row_width, HasRows};
ghost use Rattle.rules.specs.Orders.{max_price};
ghost use Rattle.rules.specs.Day.{autumn_hours};
ghost use Rattle.branches.specs.Tables.{tables_of};
ghost use Rattle.branches.specs.Meaning.{Sized};
ghost use Rattle.setup.specs.Setup.{StepsHeld, BlocksHeld, ParentsHeld, BlocksFit, ReadyFor};

use crate::blocks::{block_columns, largest, traded_by_hour, widened, with_parents, with_rows};
use crate::rows::{fill_ranges, fill_tables, joined};
use crate::twins::with_twins;
use fields::hours::change_weight;
use orders::{Blocks, DaySteps};
use places::cells::counted_prices;
use places::layout::{BLOCK_LIST, HOUR_LIST, HOURS, LAST_AND_ABOVE, MOST_BLOCKS};
use roots::root_prices;

pub mod blocks; // what they trade, their columns, parents and rows
pub mod rows; // the tables, ranges and gaps of the hours
pub mod twins; // the blocks that are taken in turn

// What the search is given besides the two tables: the hours' three columns, and the blocks' columns and rows.
#[derive(Drop)]
pub struct Prepared {
    pub hours: [u32; HOUR_LIST],
    pub columns: [u32; BLOCK_LIST],
}

// The places that a row needs: up to the last that the blocks reach in any hour, and the one above it.
pub fn row_needed(blocks: &Blocks) -> usize
    requires { BlocksHeld blocks.now.count blocks.now.prices blocks.now.quantities }
    ensures fits { BlocksFit result blocks.now }
    ensures narrow { result ≤ last_place + last_and_above }
{
    let most = traded_by_hour(blocks, true);
    (largest(most) as usize) + LAST_AND_ABOVE
}

// All that the search is given in an edition, on a day of so many hours, from the columns of a book's steps and blocks and the blocks' parents (the position and 1, or 0 for none);
// unit_prices and gap are its two tables, a row of places for each hour.
pub fn prepare(
    edition: u8,
    day: u8,
    steps: &DaySteps,
    blocks: &Blocks,
    parents: [u32; MOST_BLOCKS],
    unit_prices: &mut [u32],
    gap: &mut [u32],
) -> Prepared
    requires day { day ≤ autumn_hours }
    requires steps { (length steps.now.ends.now ≡ hour_places + 1)
        × StepsHeld steps.now.sides.now steps.now.prices.now steps.now.quantities.now steps.now.ends.now }
    requires blocks { BlocksHeld blocks.now.count blocks.now.prices blocks.now.quantities }
    requires parents { ParentsHeld parents }
    requires tables { HasRows unit_prices.old × (length gap.old ≡ length unit_prices.old) × Small max_price unit_prices.old }
    requires room { BlocksFit (row_width unit_prices.old) blocks.now }
    ensures sized { Sized (tables_of unit_prices.new gap.new result.hours result.columns blocks.now.count) }
    ensures ready { ReadyFor edition day steps.now.sides.now steps.now.prices.now steps.now.quantities.now steps.now.ends.now
        blocks.now.records blocks.now.sides blocks.now.hours blocks.now.prices blocks.now.quantities parents
        (tables_of unit_prices.new gap.new result.hours result.columns blocks.now.count) }
{
    let off = traded_by_hour(blocks, false);
    let most = traded_by_hour(blocks, true);
    fill_tables(steps, off, most, unit_prices);
    let root = root_prices(edition, day, unit_prices, off, blocks);
    let ranges = fill_ranges(steps, off, most, root, unit_prices, gap);
    let often = change_weight(day);
    let counted = counted_prices(root, often);
    let columns = block_columns(day, blocks, counted);
    let first = ranges.first;
    let last = ranges.last;
    let turn = ranges.turn;
    let wide = widened(columns);
    let linked = with_parents(parents, wide);
    let traded = with_rows(blocks.count, linked);
    Prepared {
        hours: joined(first, last, turn, often, edition),
        columns: with_twins(blocks.count, traded),
    }
}
