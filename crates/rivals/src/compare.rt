// The tests of a rival: what is asked of its blocks and their links, by the columns, and of its places and its cost. Assumes nothing.
ghost use Rattle.std.specs.Prelude.{true, ◌≡◌, ◌≤◌, ◌<◌, length};
ghost use Rattle.book.specs.Bounds.{most_blocks};
ghost use Rattle.rules.proofs.CostLaws.{tie_room};
ghost use Rattle.places.specs.Layout.{block_list_size};
ghost use Rattle.places.specs.Blocks.{BlocksSized};
ghost use Rattle.rivals.specs.Tests.{OutdoneAt, OutdoneIn, OutdoneFor, HoldsOutdone, HoldsParents, LeavesNoChild, CostsLess};

use crate::replay::takes;
use branches::Node;
use branches::next::is_left;
use places::layout::{LIMIT, PARENT, RUNS, SIDE};

// Whether block j keeps its limit wherever block i does: it has the same side and hours, and its limit is no tighter.
fn is_outdone_by(blocks: &[u32], j: usize, i: usize) -> bool
    requires { (length blocks.now ≡ block_list_size) × (j < most_blocks) × (i < most_blocks) }
    ensures { result ≡ true → OutdoneAt blocks.now j i }
{
    if blocks[SIDE + j] != blocks[SIDE + i] {
        return false;
    }
    if blocks[RUNS + j] != blocks[RUNS + i] {
        return false;
    }
    if blocks[SIDE + j] == 0 {
        return blocks[LIMIT + i] <= blocks[LIMIT + j];
    }
    blocks[LIMIT + j] <= blocks[LIMIT + i]
}

// Whether one of the first blocks that the set holds outdoes block j.
fn is_outdone(blocks: &[u32], at: u32, set: u32, j: usize) -> bool
    requires { (length blocks.now ≡ block_list_size) × (at ≤ most_blocks) × (j < most_blocks) }
    ensures { result ≡ true → OutdoneIn blocks.now at set j }
{
    for i in 0..at {
        if takes(set, i) && is_outdone_by(blocks, j, i as usize) {
            return true;
        }
    }
    false
}

// Whether block j is in the set where the rival holds it, or outdone by one of the set's first blocks.
fn is_matched(blocks: &[u32], at: u32, set: u32, rival: u32, j: u32) -> bool
    requires { (length blocks.now ≡ block_list_size) × (at ≤ most_blocks) × (j < most_blocks) }
    ensures { result ≡ true → OutdoneFor blocks.now at set rival j }
{
    if takes(rival, j) & !takes(set, j) {
        return is_outdone(blocks, at, set, j as usize);
    }
    true
}

// Whether each of the first blocks is.
pub fn holds_outdone(blocks: &[u32], at: u32, set: u32, rival: u32) -> bool
    requires { (length blocks.now ≡ block_list_size) × (at ≤ most_blocks) }
    ensures { result ≡ true → HoldsOutdone blocks.now at set rival }
{
    for j in 0..at {
        if !is_matched(blocks, at, set, rival, j) {
            return false;
        }
    }
    true
}

// Whether the rival holds none of the first blocks without its parent.
pub fn holds_parents(blocks: &[u32], at: u32, rival: u32) -> bool
    requires { BlocksSized blocks.now × (at ≤ most_blocks) }
    ensures { result ≡ true → HoldsParents blocks.now at rival }
{
    for j in 0..at {
        if takes(rival, j) & is_left(blocks[PARENT + (j as usize)], rival) {
            return false;
        }
    }
    true
}

// Whether no undecided block has a parent that the set holds and the rival does not: what completes the set may take such a block.
pub fn leaves_no_child(blocks: &[u32], count: u32, at: u32, set: u32, rival: u32) -> bool
    requires { BlocksSized blocks.now × (count ≤ most_blocks) × (at ≤ count) }
    ensures { result ≡ true → LeavesNoChild blocks.now count at set rival }
{
    for j in at..count {
        let parent = blocks[PARENT + (j as usize)];
        if is_left(parent, rival) & !is_left(parent, set) {
            return false;
        }
    }
    true
}

// Whether what is decided in a branch costs less: by loss, and at the same loss by its ties, which are less than the ties' room.
pub fn costs_less(other: Node, node: Node) -> bool
    requires { other.tie < tie_room }
    ensures { result ≡ true → CostsLess other node }
{
    if other.loss < node.loss {
        return true;
    }
    (other.loss == node.loss) & (other.tie < node.tie)
}
