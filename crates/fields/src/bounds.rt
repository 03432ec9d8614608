// How large a record's fields may be. No code, no contract; the same numbers for the contracts stand in
// specs/Bounds.antt, the price and the limits of an edition in the rules.

// The hours of a day, in the head: 23 in spring.
pub const SPRING_HOURS: u8 = 23;

// The hour in which the clocks change, and what it is in a block's hours.
pub const CHANGE_HOUR: u32 = 3;

pub const CHANGE_BIT: u32 = 4;

// The first edition, which has limits of its own.
pub const FIRST_EDITION: u8 = 1;

// The last portfolio: 1 to 255.
pub const LAST_PORTFOLIO: u8 = 255;

// The highest price: 1 to 300000.
pub const MAX_PRICE: u32 = 300000;

// The largest quantity of a step: 1 to 99,999.
pub const MOST_STEP_QUANTITY: u32 = 99999;

// The fewest hours of a block: at least two are set.
pub const FEWEST_HOURS: u32 = 2;

// The largest quantity of a block: 1 to 50 in edition 1, 1 to 250 from edition 2 on.
pub const FIRST_BLOCK_QUANTITY: u32 = 50;

pub const NOTICE_BLOCK_QUANTITY: u32 = 250;

// The most blocks of one portfolio: 5 in edition 1, 10 from edition 2 on.
pub const FIRST_BLOCKS_OF_PORTFOLIO: u16 = 5;

pub const NOTICE_BLOCKS_OF_PORTFOLIO: u16 = 10;
