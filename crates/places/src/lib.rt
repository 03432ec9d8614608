// A set's places in the tables of the search, and a branch's: what stands there, what blocks add, sell and buy, and which places are within reach.
// A place is what the taken blocks sell and the left-out blocks would buy in an hour. Assumes nothing.
#![tactic(auto)]

pub mod added; // what a block adds to the hours' places
pub mod cells; // what the tables have there
pub mod layout; // where the tables and lists have what
pub mod limits; // the blocks' limits
pub mod numbers; // one of two numbers, by a side or a test
pub mod reach; // the places that a branch can still come to
pub mod tables; // what the search goes by
pub mod trades; // what a decided set sells, buys and trades
