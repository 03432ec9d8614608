// Where the search's tables and lists have what: their sizes, and the place at which each column begins. No code, no contract; the same numbers for the
// contracts stand in specs/Layout.antt.
use orders::layout::{BLOCK_PLACES, HOURS as DAY_HOURS};

// The hours of a day: the rows of a table, and what a column of the hours holds.
pub const HOURS: usize = DAY_HOURS;

// The row of hour 3, in which the clocks change.
pub const CHANGE_ROW: usize = 2;

// The most blocks of a book: what a column of the blocks holds.
pub const MOST_BLOCKS: usize = BLOCK_PLACES;

// THE TABLES: a row of places for each hour.
// What a row has beyond the places below the last that the blocks reach: that one, and the one above it.
pub const LAST_AND_ABOVE: usize = 2;

// THE SHIFT of prices: 0 to this; the middle one.
pub const LAST_SHIFT: u32 = 1000;

pub const MIDDLE_SHIFT: u32 = 500;

// THE HOURS: three columns in one list, and two numbers of the day.
// The first place at which an hour clears.
pub const FIRST: usize = 0;

// The last place at which it clears.
pub const LAST: usize = FIRST + HOURS;

// The place of its least gap, where its gaps turn.
pub const TURN: usize = LAST + HOURS;

// How often hour 3 counts.
pub const CHANGE: usize = TURN + HOURS;

// 1 where prices can give way (edition 4), else 0.
pub const SHIFTS: usize = CHANGE + 1;

// The three columns and these numbers.
pub const HOUR_LIST: usize = SHIFTS + 1;

// THE BLOCKS: ten columns and the rows in one list.
// The side: 0 buys.
pub const SIDE: usize = 0;

// The hours, as bits.
pub const RUNS: usize = SIDE + MOST_BLOCKS;

// The quantity in each of these hours.
pub const QUANTITY: usize = RUNS + MOST_BLOCKS;

// The limit: the price times the number of hours, each as often as it counts.
pub const LIMIT: usize = QUANTITY + MOST_BLOCKS;

// What a block loses if taken.
pub const AGAINST: usize = LIMIT + MOST_BLOCKS;

// What it loses if left out.
pub const GAIN: usize = AGAINST + MOST_BLOCKS;

// The parent, without which it is not taken: its number and 1, or 0 for none.
pub const PARENT: usize = GAIN + MOST_BLOCKS;

// How much the first six columns hold, those in front of the parents'.
pub const SIX_COLUMNS: usize = PARENT;

// The twin that is taken before a block, likewise.
pub const AHEAD: usize = PARENT + MOST_BLOCKS;

// The twin that is taken after it.
pub const BEHIND: usize = AHEAD + MOST_BLOCKS;

// The rank by which ties are settled, where the blocks stand in the order of deciding: the lower a block's number, the higher.
pub const RANK: usize = BEHIND + MOST_BLOCKS;

// The rows: what each block trades in each of the 24 hours.
pub const BLOCK_ROWS: usize = RANK + MOST_BLOCKS;

// The columns and the rows.
pub const BLOCK_LIST: usize = BLOCK_ROWS + MOST_BLOCKS * HOURS;
