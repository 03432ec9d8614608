// The set whose shift is looked for.
ghost use Rattle.shift.specs.Columns.{ShiftSized};

use places::layout::HOURS;
use places::tables::Tables;

// A set whose shift is looked for: the tables, its blocks as bits, its places, and how often hour 3 counts.
#[derive(Drop)]
pub struct Sought<'a> {
    pub tables: &'a Tables<'a>,
    pub set: u32,
    pub places: [u32; HOURS],
    pub often: u32,
    ghost sized: { ShiftSized tables.now.unit_prices.now tables.now.blocks.now tables.now.count places often },
}
