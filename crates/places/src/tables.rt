// What the search goes by: the tables of the hours and the columns of the blocks. No code, no contract.

// The tables of a day, made once before the search, and lent to each of its steps.
#[derive(Clone, Copy)]
pub struct Tables<'a> {
    // A row for each hour: the unit price of the N before each place.
    pub unit_prices: &'a [u32],
    // A row for each hour: the gap at each place.
    pub gap: &'a [u32],
    // Three columns of the hours, and two numbers of the day.
    pub hours: &'a [u32],
    // Ten columns of the blocks, and a row of hours for each.
    pub blocks: &'a [u32],
    // How many blocks there are.
    pub count: u32,
}
