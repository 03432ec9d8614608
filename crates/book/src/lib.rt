// The reader, layer 1: whether a book is accepted, with how many steps and blocks, or the first cause for which it is refused.
// Every public call takes any bytes, ends, and has no `requires`; its result is what a definition of `specs/` gives. Assumes nothing.
#![tactic(auto)]

ghost use Rattle.std.specs.Prelude.{◌≡◌};
ghost use Rattle.book.specs.Answers.{reading};

use chains::{Chain, survey_of};

mod bounds; // how large a book may be
mod causes; // the causes 1 to 6 and 9 to 11, and the first of them that holds
mod refusal; // what a book or a call is refused for, with the papers' numbers

pub use bounds::{MOST_BLOCKS, MOST_RECORDS};
pub use refusal::{Refusal, refuse};

// How many steps and blocks an accepted book has on their chains.
#[derive(Clone, Copy, Debug, PartialEq, Eq)]
pub struct Counted {
    pub steps: u16,
    pub blocks: u16,
}

// Whether a book is accepted, and if not the refusal with the lowest of the numbers 1 to 6 and 9 to 11 whose cause holds.
pub fn read(book: &[u8]) -> Result<Counted, Refusal>
    ensures { result ≡ reading book.now }
{
    refuse(causes::has_wrong_size(book), Refusal::WrongSize)?;
    let steps = survey_of(book, Chain::Steps);
    let blocks = survey_of(book, Chain::Blocks);
    let links = survey_of(book, Chain::Links);
    causes::refuse_for_rest(book, steps, blocks, links)?;
    Ok(Counted {
        steps: steps.length,
        blocks: blocks.length,
    })
}
