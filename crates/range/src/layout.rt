// Where a list's bytes have what, and how large a list and its fields may be. No code, no contract; the same numbers for the contracts
// stand in specs/Layout.antt, the largest side in records, the highest price in book.

// The bytes of an entry: entry i starts at byte 16 * i.
pub const ENTRY_SIZE: usize = 16;

// The most entries of a list.
pub const MOST_ENTRIES: usize = 256;

// AN ENTRY, counted from the byte where it starts.
// Bytes 0-3: the side, 0 buy, 1 sell.
pub const SIDE_OFFSET: usize = 0;

// Bytes 4-7: the price.
pub const PRICE_OFFSET: usize = 4;

// Bytes 8-11: the low figure of the quantity.
pub const LOW_OFFSET: usize = 8;

// Bytes 12-15: the high figure.
pub const HIGH_OFFSET: usize = 12;

// The largest figure: 0 to 99,999.
pub const MOST_FIGURE: u32 = 99999;
