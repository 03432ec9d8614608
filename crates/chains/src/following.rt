// The records that hang together by `next`, from a first one to the zero that ends them, at most as many as the book counts. Assumes nothing.
ghost use Rattle.std.specs.Prelude.{◌≡◌};
ghost use Rattle.std.specs.Iterator.{YieldsFirst, item_count};
ghost use Rattle.chains.specs.Chains.{chain};
ghost use Rattle.chains.specs.Passes.{to_follow};

use records::{next_of, record_count};

// A walk along a chain: the index that comes next, and how many may still come.
#[derive(Drop)]
pub struct Walk<'a> {
    book: &'a [u8],
    at: u16,
    left: u16,
}

impl<'a> Iterator for Walk<'a> {
    type Item = u16;

    ghost next_gives = { YieldsFirst to_follow };

    ghost remaining = { item_count to_follow };

    fn next(&mut self) -> Option<u16> {
        if self.left == 0 || self.at == 0 {
            return None;
        }
        let i = self.at;
        self.at = next_of(self.book, i);
        self.left -= 1;
        Some(i)
    }
}

// The walk that starts at record i; none where i is 0.
pub fn chained(book: &[u8], i: u16) -> Walk<'_>
    ensures { to_follow result ≡ chain book.now i }
{
    Walk {
        book,
        at: i,
        left: record_count(book),
    }
}
