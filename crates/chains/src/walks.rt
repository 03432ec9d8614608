// The chains: what belongs on each, and the walks along one, from its first record to the zero that ends it, for at
// most R records: causes 3 and 4, and the records of each portfolio, for 6. Assumes nothing.
ghost use Rattle.std.specs.Prelude.{◌≡◌, ℕ, ◌<◌, get_or};
ghost use Rattle.fields.specs.Tests.{count_in};
ghost use Rattle.chains.specs.Bounds.{portfolio_numbers};
ghost use Rattle.chains.specs.Chains.{first_on, kind_on, numbered, chain_of};
ghost use Rattle.chains.specs.Causes.{misplaced, owned_by};
ghost use Rattle.chains.specs.Passes.{surveyed};

use crate::bounds::PORTFOLIO_NUMBERS;
use crate::following::chained;
use crate::{Chain, Surveyed};
use fields::is_out_of_range;
use records::{
    BLOCK_KIND, LINK_KIND, STEP_KIND, first_block, first_link, first_step, kind_of, number_of,
    portfolio_of, record_count,
};

// The index of a chain's first record.
pub fn first_on(book: &[u8], chain: Chain) -> u16
    ensures { result ≡ first_on book.now chain }
{
    match chain {
        Chain::Steps => first_step(book),
        Chain::Blocks => first_block(book),
        Chain::Links => first_link(book),
    }
}

// The kind of the records that belong on a chain.
fn kind_on(chain: Chain) -> u8
    ensures { result ≡ kind_on chain }
{
    match chain {
        Chain::Steps => STEP_KIND,
        Chain::Blocks => BLOCK_KIND,
        Chain::Links => LINK_KIND,
    }
}

// Whether the numbers along a chain must rise. An arm for each chain, though all say the same: each is told, and can be wrong, by itself.
fn is_numbered(chain: Chain) -> bool
    ensures { result ≡ numbered chain }
{
    match chain {
        Chain::Steps => true,
        Chain::Blocks => true,
        Chain::Links => true,
    }
}

// Cause 3 at record i of a chain, after the number last.
#[tactic(auto, unfolding(crate::specs::Causes::misplaced))]
fn is_misplaced(book: &[u8], chain: Chain, last: u16, i: u16) -> bool
    ensures { result ≡ misplaced book.now chain last i }
{
    (record_count(book) <= i)
        | (kind_of(book, i) != kind_on(chain))
        | (is_numbered(chain) & (number_of(book, i) <= last))
}

// Causes 3 and 4 along a chain, and its length, in one walk.
pub fn survey_of(book: &[u8], chain: Chain) -> Surveyed
    ensures { result ≡ surveyed book.now chain }
{
    let mut last = 0;
    let mut broken = false;
    let mut outside = false;
    let mut length = 0;
    for i in chained(book, first_on(book, chain)) {
        broken |= is_misplaced(book, chain, last, i);
        outside |= is_out_of_range(book, i);
        length += 1;
        last = number_of(book, i);
    }
    Surveyed {
        broken,
        outside,
        length,
    }
}

// How many records of a chain each portfolio has.
pub fn counts_by_portfolio(book: &[u8], chain: Chain) -> [u16; PORTFOLIO_NUMBERS]
    ensures { (p : ℕ) → p < portfolio_numbers → get_or result p 0 ≡ count_in (chain_of book.now chain) (owned_by book.now p) }
{
    let mut counts = [0; PORTFOLIO_NUMBERS];
    for i in chained(book, first_on(book, chain)) {
        counts[usize::from(portfolio_of(book, i))] += 1;
    }
    counts
}
