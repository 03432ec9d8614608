// Cause 11: more than 256 steps of a portfolio in one hour. Assumes nothing.
ghost use Rattle.std.specs.Prelude.{◌≡◌};
ghost use Rattle.chains.specs.Bounds.{most_steps_in_hour};
ghost use Rattle.chains.specs.Causes.{more_steps};

use crate::bounds::{HOUR_NUMBERS, MOST_STEPS_IN_HOUR, PORTFOLIO_NUMBERS};
use crate::following::chained;
use records::{first_step, hour_byte, portfolio_of};

// A counter for each hour and portfolio.
const STEP_COUNTERS: usize = HOUR_NUMBERS * PORTFOLIO_NUMBERS;

// Cause 11 along the steps, whatever the edition: each is counted for its hour and portfolio. One for no hour, which is cause 4, is not counted.
pub fn has_more_steps(book: &[u8]) -> bool
    ensures { result ≡ more_steps most_steps_in_hour book.now }
{
    let mut counts = [0; STEP_COUNTERS];
    for i in chained(book, first_step(book)) {
        let hour = usize::from(hour_byte(book, i));
        if hour < HOUR_NUMBERS {
            let at = hour * PORTFOLIO_NUMBERS + usize::from(portfolio_of(book, i));
            if MOST_STEPS_IN_HOUR <= counts[at] {
                return true;
            }
            counts[at] += 1;
        }
    }
    false
}
