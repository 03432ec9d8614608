// A record by itself: whether its fields are in their ranges, and the hours on their day.
// Every public call takes any bytes, ends, and has no `requires`; its result is what a definition of `specs/` gives. Assumes nothing.
#![tactic(auto)]

mod bounds; // how large a record's fields may be
pub mod hours; // which hours count on their day, and how often
mod ranges; // the ranges of a record's fields

pub use bounds::{FEWEST_HOURS, FIRST_EDITION, LAST_PORTFOLIO, MAX_PRICE, SPRING_HOURS};
pub use ranges::{is_out_of_range, is_within, most_blocks_of_portfolio};
