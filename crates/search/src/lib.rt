// The search over the blocks: each first taken and then left out, by cost: by loss at fixed hourly prices, and among sets that lose the same by the ranks of the
// blocks left out. Assumes nothing.
#![tactic(auto)]

use places::layout::HOURS;

mod decide; // all blocks are decided
pub mod explore; // every way to decide the blocks that are left

// The price and the traded quantity of each hour.
#[derive(Drop)]
pub struct Day {
    pub prices: [u32; HOURS],
    pub quantities: [u32; HOURS],
}

// The best so far: what it loses, what its left-out blocks come to, the set and its day; at first a loss alone, which must be less. With the fuel that is left:
// a search that has spent it says nothing. Set and day stay beside the loss, with no Option about them: their promise holds only where the cost has fallen.
#[derive(Drop)]
pub struct Best {
    pub limit: u64,
    pub tie: u64,
    pub fuel: u64,
    pub set: u32,
    pub day: Day,
}
