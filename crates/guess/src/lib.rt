// A limit for a pass of the search, by a guess: what a lawful set loses. The blocks that gain at the root prices are taken; as long as some of them miss
// their limits, one of these is left out, by one rule or another. Any limit is right, so of the guess only safety is proved, and of the steps on the way what
// each answers; how many branches the search drops depends on it. Assumes nothing.
#![tactic(auto)]

ghost use Rattle.std.specs.Prelude.{◌≤◌, IfSome};
ghost use Rattle.guess.specs.Guess.{Held, most_guess};

use crate::sets::{closed, gaining, without};
use crate::trial::{Rule, Trial, try_set};
use places::layout::MOST_BLOCKS;
use places::tables::Tables;

mod sets; // sets of blocks that hold every block's parent
mod trial; // what a set loses, and which of its blocks misses its limit

// The rules, one guess each.
const RULES: [Rule; 4] = [Rule::ByMiss, Rule::ByGain, Rule::BySmallness, Rule::BySize];

// How often a set is tried: with all its blocks, and after each that is left out.
const ROUNDS: usize = MOST_BLOCKS + 1;

// What the first lawful set loses that is found by one rule; none where a set on the way does not clear.
fn guess_by(rule: Rule, tables: &Tables) -> Option<u64>
    requires { Held tables.now }
    ensures { IfSome result (λ loss. loss ≤ most_guess) }
{
    let blocks = tables.blocks;
    let count = tables.count as usize;
    let mut set = closed(blocks, count, gaining(blocks, count));
    for _ in 0..ROUNDS {
        match try_set(rule, tables, set)? {
            Trial::Keeps(loss) => return Some(loss),
            Trial::Misses(worst) => {
                // A variable of its own: the borrow checker covers no call whose result is laid in an array.
                let fewer = closed(blocks, count, without(set, worst));
                set = fewer;
            }
        }
    }
    None
}

// The least that a lawful set loses of those that the rules find, if they find any.
pub fn guess(tables: &Tables) -> Option<u64>
    requires { Held tables.now }
    ensures { IfSome result (λ loss. loss ≤ most_guess) }
{
    RULES
        .into_iter()
        .filter_map(|rule| guess_by(rule, tables))
        .min()
}
