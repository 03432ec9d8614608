// Passes with small limits and little fuel, without rivals: where ordinary days are found.
ghost use Rattle.std.specs.Prelude.{◌≤◌};
ghost use Rattle.places.specs.Layout.{last_limit};
ghost use Rattle.branches.specs.Tables.{seen};
ghost use Rattle.search.specs.Meaning.{hour_steps};
ghost use Rattle.passes.specs.Passes.{Given, LimitHeld, FoundLight};

use crate::limits::LITTLE_FUEL;
use crate::pass::pass;
use orders::DaySteps;
use places::tables::Tables;
use search::Best;

// The published set, where a light pass with a limit from..to finds it before the fuel is spent, a pass that has spent it says nothing; else the limit that
// was reached.
pub fn find_light(tables: &Tables, steps: &DaySteps, from: u64, to: u64) -> Result<Best, u64>
    requires { Given tables.now steps.now × LimitHeld from × (to ≤ last_limit) }
    ensures { FoundLight (seen tables.now) (hour_steps steps.now) result }
{
    let mut no_rivals: [u32; 0] = [];
    let mut fuel = LITTLE_FUEL;
    let mut limit = from;
    // The limit doubles from pass to pass, so this is no `for`.
    while limit <= to {
        let found = pass(tables, steps, &mut no_rivals, limit, fuel);
        if found.fuel == 0 {
            return Err(limit);
        }
        if found.limit < limit {
            return Ok(found);
        }
        fuel = found.fuel;
        limit *= 2;
    }
    Err(limit)
}
