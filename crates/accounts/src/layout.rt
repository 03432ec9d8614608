// Where the accounts have what: five columns in one list, each with a place for every portfolio. No code, no contract; the same numbers for the contracts
// stand in specs/Layout.antt.

// The numbers that a portfolio's byte can be, the places of a column, and the last portfolio.
pub use chains::PORTFOLIO_NUMBERS;
pub use fields::LAST_PORTFOLIO;

// The columns: quantity bought and sold, cash paid and received, and how many orders there are. No enum: a column is an index, and the places are
// reckoned from it.
pub const BOUGHT: usize = 0;

pub const SOLD: usize = 1;

pub const PAID: usize = 2;

pub const RECEIVED: usize = 3;

pub const ORDERS: usize = 4;

pub const COLUMNS: usize = 5;

// The place of the totals in each column: 0, which no portfolio is.
pub const TOTALS: u8 = 0;

// All places.
pub const ACCOUNT_PLACES: usize = PORTFOLIO_NUMBERS * COLUMNS;
