// Light passes, then heavy ones; where blocks are linked, from a guess on.
ghost use Rattle.std.specs.Prelude.{◌≡◌, ◌≤◌};
ghost use Rattle.book.specs.Bounds.{most_blocks};
ghost use Rattle.places.specs.Blocks.{BlocksSized};
ghost use Rattle.branches.specs.Tables.{seen};
ghost use Rattle.search.specs.Meaning.{hour_steps};
ghost use Rattle.passes.specs.Passes.{Given, is_linked, FoundThere};

use crate::heavy::find_heavy;
use crate::light::find_light;
use crate::limits::{FIRST_LIMIT, LAST_LIGHT, LAST_NEAR};
use guess::guess;
use orders::DaySteps;
use places::layout::PARENT;
use places::tables::Tables;
use search::Best;

// Whether one of the first count blocks has a parent.
fn is_linked(blocks: &[u32], count: usize) -> bool
    requires { BlocksSized blocks.now × (count ≤ most_blocks) }
    ensures { result ≡ is_linked blocks.now count }
{
    for i in 0..count {
        if blocks[PARENT + i] != 0 {
            return true;
        }
    }
    false
}

// The published set by rising limits. Ordinary days are found by the light passes, and pay nothing for a guess or a table.
fn find_by_limits(tables: &Tables, steps: &DaySteps) -> Best
    requires { Given tables.now steps.now }
    ensures { FoundThere (seen tables.now) (hour_steps steps.now) result }
{
    match find_light(tables, steps, FIRST_LIMIT, LAST_LIGHT) {
        Ok(best) => best,
        Err(limit) => find_heavy(tables, steps, guess(tables), limit),
    }
}

// The published set from the guess on: a set of linked blocks loses much, since a parent that misses its limit takes its children out with it, and no small
// limit finds it. A guess that is far off is not gone by.
fn find_at_guess(tables: &Tables, steps: &DaySteps) -> Best
    requires { Given tables.now steps.now }
    ensures { FoundThere (seen tables.now) (hour_steps steps.now) result }
{
    let guessed = guess(tables);
    let Some(loss) = guessed else {
        return find_by_limits(tables, steps);
    };
    if LAST_NEAR < loss {
        return find_by_limits(tables, steps);
    }
    match find_light(tables, steps, loss + 1, loss + 1) {
        Ok(best) => best,
        Err(_) => find_heavy(tables, steps, guessed, FIRST_LIMIT),
    }
}

// The published set, of blocks as they stand.
pub fn find_there(tables: &Tables, steps: &DaySteps) -> Best
    requires { Given tables.now steps.now }
    ensures { FoundThere (seen tables.now) (hour_steps steps.now) result }
{
    if is_linked(tables.blocks, tables.count as usize) {
        return find_at_guess(tables, steps);
    }
    find_by_limits(tables, steps)
}
