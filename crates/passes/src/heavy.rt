// Passes with a table of rivals, for days that are not found lightly.
ghost use Rattle.std.specs.Prelude.{ℕ, ◌^◌, ◌<◌, ◌≤◌, get_or, IfSome};
ghost use Rattle.guess.specs.Guess.{most_guess};
ghost use Rattle.branches.specs.Tables.{seen};
ghost use Rattle.search.specs.Meaning.{hour_steps};
ghost use Rattle.passes.specs.Passes.{Given, LimitHeld, FoundThere};

use crate::limits::{ENOUGH_FUEL, LAST_LIMIT, limit_after};
use crate::pass::pass;
use orders::DaySteps;
use places::tables::Tables;
use search::Best;

// The slots of the table of rivals: more would pay on some days only, and take more of the stack.
const SLOTS: usize = 32768;

// Each number of a list is a word: what its type says, for the proof that the last pass finds.
fn are_words(list: &[u32])
    ensures { (i : ℕ) → get_or list.now i 0 < 2 ^ 32 }
{}

// The published set, by passes from a limit on. A pass that finds a set has found the published one, and the last one finds.
pub fn find_heavy(tables: &Tables, steps: &DaySteps, guessed: Option<u64>, from: u64) -> Best
    requires { Given tables.now steps.now × IfSome guessed (λ loss. loss ≤ most_guess) × LimitHeld from }
    ensures { FoundThere (seen tables.now) (hour_steps steps.now) result }
{
    let mut table = [0; SLOTS];
    let mut limit = from;
    // The limit doubles or jumps to the guess, so this is no `for`.
    while limit < LAST_LIMIT {
        let found = pass(tables, steps, &mut table, limit, ENOUGH_FUEL);
        if found.limit < limit {
            return found;
        }
        limit = limit_after(limit, guessed);
    }
    are_words(tables.gap);
    are_words(tables.blocks);
    pass(tables, steps, &mut table, limit, ENOUGH_FUEL)
}
