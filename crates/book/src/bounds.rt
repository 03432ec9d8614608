// How large a book may be, and its editions (document 01, "The book in bytes" and "Refused books and calls"). No code, no contract; the same numbers for
// the contracts stand in specs/Bounds.antt, the hours of a day in the rules; those of a record's fields stand in crate `fields`.

// The most records of a book, head included: R is 1 to 2,048.
pub const MOST_RECORDS: u16 = 2048;

// The hours of a day, in the head: 25 in autumn, 23 in spring, 24 on every other day.
pub const AUTUMN_HOURS: u8 = 25;

// The editions that there are, in the head: 1 to 4.
pub const LAST_EDITION: u8 = 4;

// The first edition with links.
pub const FIRST_LINK_EDITION: u8 = 3;

// The first edition with a limit on steps.
pub const FIRST_STEP_LIMIT_EDITION: u8 = 4;

// The most blocks of a book.
pub const MOST_BLOCKS: u16 = 32;
