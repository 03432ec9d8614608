// One pass over all blocks.
ghost use Rattle.std.specs.Prelude.{◌≡◌};
ghost use Rattle.branches.specs.Tables.{seen};
ghost use Rattle.search.specs.Meaning.{hour_steps};
ghost use Rattle.passes.specs.Passes.{Given, LimitHeld, start_at, Passed};

use branches::Node;
use orders::DaySteps;
use places::layout::HOURS;
use places::tables::Tables;
use search::explore::explore;
use search::{Best, Day};

// No set is found yet, and a limit is set; with fuel.
pub fn start_at(limit: u64, fuel: u64) -> Best
    ensures { result ≡ start_at limit fuel }
{
    let day = Day {
        prices: [0; HOURS],
        quantities: [0; HOURS],
    };
    Best {
        limit,
        tie: 0,
        fuel,
        set: 0,
        day,
    }
}

// A pass over all blocks from a limit, with fuel; rivals are looked up in the table, where it has slots.
pub fn pass(tables: &Tables, steps: &DaySteps, table: &mut [u32], limit: u64, fuel: u64) -> Best
    requires { Given tables.now steps.now × LimitHeld limit }
    ensures { Passed (seen tables.now) (hour_steps steps.now) limit fuel result }
{
    let root = Node {
        set: 0,
        loss: 0,
        tie: 0,
        places: [0; HOURS],
    };
    explore(
        tables,
        steps,
        table,
        tables.count,
        0,
        root,
        start_at(limit, fuel),
    )
}
