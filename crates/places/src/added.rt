// What a block adds to the hours' places: its quantity in its hours, or its row.
ghost use Rattle.std.specs.Prelude.{◌≡◌, ℕ, ◌+◌, ◌-◌, ◌≤◌, ◌<◌, length, get_or};
ghost use Rattle.rules.specs.Hour.{when};
ghost use Rattle.records.specs.Records.{holds_hour};
ghost use Rattle.book.specs.Bounds.{most_blocks};
ghost use Rattle.places.specs.Layout.{hour_places, most_added, most_place};
ghost use Rattle.places.specs.Hours.{Small};
ghost use Rattle.places.specs.Blocks.{row_quantity, BlocksSized};

use crate::layout::{BLOCK_ROWS, HOURS};

// The places with a quantity more in each hour of a block.
pub fn moved(places: [u32; HOURS], hours: u32, quantity: u32) -> [u32; HOURS]
    requires { Small most_place places × (quantity ≤ most_added) }
    ensures { (length result ≡ hour_places) × ((h : ℕ) → 1 ≤ h → h ≤ hour_places → get_or result (h - 1) 0 ≡ get_or places (h - 1) 0 + when (holds_hour hours h) quantity) }
{
    let mut r = places;
    let mut rest = hours;
    for h in 0..HOURS {
        r[h] += (rest % 2) * quantity;
        rest = rest / 2;
    }
    r
}

// The places with what block i trades in each hour more, where the test passes. Not one function with `moved`, which reads bits of hours and no row.
pub fn moved_where(test: bool, places: [u32; HOURS], blocks: &[u32], i: usize) -> [u32; HOURS]
    requires { BlocksSized blocks.now × (i < most_blocks) × Small most_place places }
    ensures { (length result ≡ hour_places)
        × ((h : ℕ) → 1 ≤ h → h ≤ hour_places → get_or result (h - 1) 0 ≡ get_or places (h - 1) 0 + when test (row_quantity blocks.now i h)) }
{
    let times = u32::from(test);
    let row = BLOCK_ROWS + HOURS * i;
    let mut r = places;
    for h in 0..HOURS {
        r[h] += times * blocks[row + h];
    }
    r
}
