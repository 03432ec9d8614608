// The twins for the search: for each block the earlier one of the same side, hours and quantity that is taken before it, and the one that is taken after it.
// Only where to exchange the two breaks no link.
ghost use Rattle.std.specs.Prelude.{◌≡◌, ℕ, suc, true, cond, ◌≤◌, ◌<◌, length, Some};
ghost use Rattle.book.specs.Bounds.{most_blocks};
ghost use Rattle.places.specs.Layout.{block_list_size};
ghost use Rattle.setup.specs.Setup.{parent_numbers, ParentsBefore, Marked, TwinsAt, StandsIn, no_worse, TwinFound, TwinsEmpty, TwinsWritten};

use places::layout::{AHEAD, BEHIND, BLOCK_LIST, LIMIT, MOST_BLOCKS, PARENT, QUANTITY, RUNS, SIDE};
use places::numbers::choose;

// What the parents' column may name: 0 for none, and of each block its number and 1.
const PARENT_NUMBERS: usize = MOST_BLOCKS + 1;

// Each that it names, marked with 1.
fn parent_marks(blocks: &[u32]) -> [u32; PARENT_NUMBERS]
    requires { (length blocks.now ≡ block_list_size) × ParentsBefore blocks.now }
    ensures { Marked blocks.now result }
{
    let mut marks = [0; PARENT_NUMBERS];
    for j in 0..MOST_BLOCKS {
        marks[blocks[PARENT + j] as usize] = 1;
    }
    marks
}

// Whether block a may stand in for block b: it has no parent or b's, and b is nobody's parent.
fn may_stand_in(blocks: &[u32], marks: &[u32], a: usize, b: usize) -> bool
    requires blocks { (length blocks.now ≡ block_list_size) × (a < most_blocks) × (b < most_blocks) }
    requires marks { (length marks.now ≡ parent_numbers) × Marked blocks.now marks.now }
    ensures { result ≡ true → StandsIn blocks.now a b }
{
    let parent = blocks[PARENT + a];
    let none_or_same = (parent == 0) | (parent == blocks[PARENT + b]);
    none_or_same & (marks[b + 1] == 0)
}

// Whether two blocks are twins: of the same side, hours and quantity.
fn are_twins(blocks: &[u32], a: usize, b: usize) -> bool
    requires { (length blocks.now ≡ block_list_size) × (a < most_blocks) × (b < most_blocks) }
    ensures { result ≡ true → TwinsAt blocks.now a b }
{
    let same_side = blocks[SIDE + a] == blocks[SIDE + b];
    let same_hours = blocks[RUNS + a] == blocks[RUNS + b];
    let same_quantity = blocks[QUANTITY + a] == blocks[QUANTITY + b];
    (same_side & same_hours) & same_quantity
}

// Whether blocks j and i are twins of which the one ahead may stand in for the other: j for i, or where ahead is false i for j.
fn may_exchange(blocks: &[u32], marks: &[u32], j: usize, i: usize, ahead: bool) -> bool
    requires blocks { (length blocks.now ≡ block_list_size) × (j < most_blocks) × (i < most_blocks) }
    requires marks { (length marks.now ≡ parent_numbers) × Marked blocks.now marks.now }
    ensures { result ≡ true → TwinsAt blocks.now j i × StandsIn blocks.now (cond ahead j i) (cond ahead i j) }
{
    if !are_twins(blocks, j, i) {
        return false;
    }
    if ahead {
        may_stand_in(blocks, marks, j, i)
    } else {
        may_stand_in(blocks, marks, i, j)
    }
}

// Whether a limit is kept wherever another is: a buy's is no lower, a sell's no higher.
fn is_no_worse(side: u32, limit: u32, other: u32) -> bool
    ensures { result ≡ no_worse side limit other }
{
    if side == 0 {
        other <= limit
    } else {
        limit <= other
    }
}

// Of the earlier twins of block i that are taken before it, the last by limit; where ahead is false, of those that are taken after it, the first.
fn nearest_twin(blocks: &[u32], marks: &[u32], i: usize, ahead: bool) -> Option<usize>
    requires blocks { (length blocks.now ≡ block_list_size) × (i < most_blocks) }
    requires marks { (length marks.now ≡ parent_numbers) × Marked blocks.now marks.now }
    ensures { TwinFound blocks.now i ahead result }
{
    let side = blocks[SIDE + i];
    let limit = blocks[LIMIT + i];
    let trades = 0 < blocks[QUANTITY + i];
    let mut found = None;
    let mut edge = choose((side == 0) == ahead, u32::MAX, 0);
    for j in 0..i {
        let here = blocks[LIMIT + j];
        let twins = may_exchange(blocks, marks, j, i, ahead);
        let fits = (twins & trades) & (is_no_worse(side, here, limit) == ahead);
        if fits & (is_no_worse(side, edge, here) == ahead) {
            found = Some(j);
            edge = here;
        }
    }
    found
}

// A twin's number and 1, or 0 for none: what the columns hold.
fn numbered(found: Option<usize>) -> u32
    requires { (a : ℕ) → found ≡ Some a → a < most_blocks }
    ensures { (a : ℕ) → result ≡ suc a → found ≡ Some a }
{
    match found {
        Some(a) => a as u32 + 1,
        None => 0,
    }
}

// The same with the twins of each block.
pub fn with_twins(count: usize, blocks: [u32; BLOCK_LIST]) -> [u32; BLOCK_LIST]
    requires { (count ≤ most_blocks) × TwinsEmpty blocks × ParentsBefore blocks }
    ensures { TwinsWritten count blocks result }
{
    let marks = parent_marks(&blocks);
    let mut r = blocks;
    for i in 0..count {
        r[AHEAD + i] = numbered(nearest_twin(&blocks, &marks, i, true));
        r[BEHIND + i] = numbered(nearest_twin(&blocks, &marks, i, false));
    }
    r
}
