// The parents of a book's blocks: for each block the place of its parent among them. Assumes nothing.
ghost use Rattle.std.specs.Prelude.{◌≡◌, ◌≤◌, length};
ghost use Rattle.chains.specs.Chains.{link_order};
ghost use Rattle.orders.specs.Layout.{block_places};
ghost use Rattle.orders.specs.Columns.{parent_among, place_among, parent_place_at, parent_column};

use crate::follow;
use crate::layout::BLOCK_PLACES;
use chains::chained;
use records::{first_block, first_link, link_at, number_of};

// The number of a block's parent: that of the first link whose child the block is; 0 where there is none.
// No Option: a link of a refused book may name the parent 0, which the promised column takes for none.
fn parent_of(book: &[u8], number: u16) -> u16
    ensures { result ≡ parent_among book.now (link_order book.now) number }
{
    for i in chained(book, first_link(book)) {
        let link = link_at(book, i);
        if link.child == number {
            return link.parent;
        }
    }
    0
}

// One more than the place of the first record with this number; 0 where there is none, as the promised column has it.
fn place_of(book: &[u8], records: &[u16], number: u16) -> u32
    requires { length records.now ≤ block_places }
    ensures { result ≡ place_among book.now 0 records.now number }
{
    for (i, k) in records.iter().enumerate() {
        if number_of(book, *k) == number {
            return i as u32 + 1;
        }
    }
    0
}

// For the block of record k, one more than its parent's place among the blocks' records; 0 where it has no parent.
fn parent_place(book: &[u8], records: &[u16], k: u16) -> u32
    requires { length records.now ≤ block_places }
    ensures { result ≡ parent_place_at book.now records.now k }
{
    let parent = parent_of(book, number_of(book, k));
    if parent == 0 {
        return 0;
    }
    place_of(book, records, parent)
}

// For each of a book's blocks, one more than its parent's place among them; 0 where it has no parent, and behind the last block.
pub fn parents_of(book: &[u8]) -> [u32; BLOCK_PLACES]
    ensures { result ≡ parent_column book.now }
{
    let mut parents = [0; BLOCK_PLACES];
    if first_link(book) == 0 {
        return parents;
    }
    let mut places = [0; BLOCK_PLACES];
    let records = follow(book, first_block(book), &mut places);
    for i in 0..records.len() {
        parents[i] = parent_place(book, records, records[i]);
    }
    parents
}
