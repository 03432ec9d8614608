// Cause 9: on a 23-hour day a step for hour 3, or a block with fewer than two counted hours. Assumes nothing.
ghost use Rattle.std.specs.Prelude.{◌≡◌};
ghost use Rattle.records.specs.Records.{record_at};
ghost use Rattle.chains.specs.Causes.{uncounted, uncounted_on, wrong_hours};

use crate::Chain;
use crate::following::chained;
use crate::walks::first_on;
use fields::hours::{counted_hours, is_counted};
use fields::{FEWEST_HOURS, SPRING_HOURS};
use records::{Record, day_hours, record_at};

// Whether record i is a step for an hour that does not count, or a block with fewer than two counted hours.
#[tactic(auto, unfolding(crate::specs::Causes::uncounted))]
fn is_uncounted(book: &[u8], i: u16) -> bool
    ensures { result ≡ uncounted book.now (record_at book.now i) }
{
    let day = day_hours(book);
    match record_at(book, i) {
        Record::Step(step) => !is_counted(day, u32::from(step.hour)),
        Record::Block(block) => counted_hours(day, block.hours) < FEWEST_HOURS,
        Record::Link(_) | Record::Other => false,
    }
}

// Cause 9 along a chain, whatever its day.
fn is_uncounted_on(book: &[u8], chain: Chain) -> bool
    ensures { result ≡ uncounted_on book.now chain }
{
    chained(book, first_on(book, chain)).any(|i| is_uncounted(book, i))
}

// 9: on a 23-hour day a step for hour 3, or a block with fewer than two counted hours.
pub fn has_wrong_hours(book: &[u8]) -> bool
    ensures { result ≡ wrong_hours book.now }
{
    if day_hours(book) != SPRING_HOURS {
        return false;
    }
    is_uncounted_on(book, Chain::Steps)
        | is_uncounted_on(book, Chain::Blocks)
        | is_uncounted_on(book, Chain::Links)
}
