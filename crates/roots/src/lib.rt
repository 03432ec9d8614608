// The root prices, those that the search goes by. Any prices are right, so only safety is proved here; how many branches the search drops depends on them.
// Assumes nothing.
#![tactic(auto)]

ghost use Rattle.std.specs.Prelude.{◌≡◌, ◌≤◌};
ghost use Rattle.rules.specs.Orders.{max_price};
ghost use Rattle.rules.specs.Day.{autumn_hours, gives_way};
ghost use Rattle.book.specs.Bounds.{most_blocks};
ghost use Rattle.places.specs.Layout.{most_quantity, most_limit};
ghost use Rattle.places.specs.Hours.{Small, FirstSmall, HasRows, last_in};

use crate::held::{bounds_of, held};
use crate::losses::{Asked, loss_at};
use crate::moves::{MOVES, ROUND, Trail, moved_on};
use fields::hours::{change_weight, counted_hours};
use orders::Blocks;
use places::cells::prices_at;
use places::layout::{HOURS, MOST_BLOCKS};

pub mod held; // the prices of hours without steps
pub mod losses; // what the empty set loses at given prices
pub mod moves; // prices on their way

// The first edition whose prices can give way.
const FIRST_SHIFT_EDITION: u8 = 4;

// Whether an edition's prices can give way.
pub fn gives_way(edition: u8) -> bool
    ensures { result ≡ gives_way edition }
{
    FIRST_SHIFT_EDITION <= edition
}

// What each block asks for over its hours: its price times their number, as they count.
fn limits_of(day: u8, blocks: &Blocks) -> [u32; MOST_BLOCKS]
    requires day { day ≤ autumn_hours }
    requires blocks { (blocks.now.count ≤ most_blocks) × FirstSmall blocks.now.count max_price blocks.now.prices }
    ensures { Small most_limit result }
{
    let mut limits = [0; MOST_BLOCKS];
    for i in 0..blocks.count {
        limits[i] = blocks.prices[i] * counted_hours(day, blocks.hours[i]);
    }
    limits
}

// The prices that the search goes by: the empty set's own, or those after 7, 14, .. 56 moves, where it loses least: what the blocks
// would gain there and what the hours lose at its places, as they count on a day of so many hours. Two sets' losses differ by the same at all prices, so the
// published set loses least there too. Any prices are right.
pub fn root_prices(
    edition: u8,
    day: u8,
    unit_prices: &[u32],
    off: [u32; HOURS],
    blocks: &Blocks,
) -> [u32; HOURS]
    requires day { day ≤ autumn_hours }
    requires tables { HasRows unit_prices.now × Small max_price unit_prices.now × Small (last_in unit_prices.now) off }
    requires blocks { (blocks.now.count ≤ most_blocks) × FirstSmall blocks.now.count max_price blocks.now.prices
        × FirstSmall blocks.now.count most_quantity blocks.now.quantities }
    ensures { Small max_price result }
{
    let asked = Asked {
        blocks,
        limits: limits_of(day, blocks),
        often: change_weight(day),
    };
    let bounds = bounds_of(gives_way(edition), unit_prices, off, blocks);
    let mut best = held(prices_at(unit_prices, off), &bounds);
    let mut least = loss_at(unit_prices, off, &asked, best);
    let mut trail = Trail {
        prices: best,
        sum: off,
    };
    for n in (1..MOVES).step_by(ROUND as usize) {
        let next = moved_on(unit_prices, &asked, trail, n, &bounds);
        let root = next.prices;
        let loss = loss_at(unit_prices, off, &asked, root);
        if loss < least {
            best = root;
            least = loss;
        }
        trail = next;
    }
    best
}
