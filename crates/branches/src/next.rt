// One more block decided: taken or left out, and whether it may be only one of the two.
ghost use Rattle.std.specs.Prelude.{◌≡◌, ◌+◌, ◌≤◌, ◌<◌};
ghost use Rattle.book.specs.Bounds.{most_blocks};
ghost use Rattle.places.specs.Blocks.{BlocksSized};
ghost use Rattle.branches.specs.Decisions.{names_left, is_barred, is_due};
ghost use Rattle.branches.specs.Meaning.{Fits, TakenTo, LeftTo};

use crate::Node;
use crate::judge::bit;
use places::added::moved_where;
use places::layout::{AGAINST, AHEAD, BEHIND, GAIN, PARENT, RANK, SIDE};

// The node with block number at taken: a sell moves the places on in its hours.
pub fn take(blocks: &[u32], at: u32, node: Node) -> Node
    requires { BlocksSized blocks.now × (at < most_blocks) × Fits at node }
    ensures { Fits (at + 1) result × TakenTo blocks.now at node result }
{
    let i = at as usize;
    let moved = moved_where(blocks[SIDE + i] != 0, node.places, blocks, i);
    Node {
        set: node.set + bit(at),
        loss: node.loss + u64::from(blocks[AGAINST + i]),
        tie: node.tie,
        places: moved,
    }
}

// The node with block number at left out: a buy moves the places on in its hours, and the block counts by its rank.
pub fn leave(blocks: &[u32], at: u32, node: Node) -> Node
    requires { BlocksSized blocks.now × (at < most_blocks) × Fits at node }
    ensures { Fits (at + 1) result × LeftTo blocks.now at node result }
{
    let i = at as usize;
    let moved = moved_where(blocks[SIDE + i] == 0, node.places, blocks, i);
    Node {
        set: node.set,
        loss: node.loss + u64::from(blocks[GAIN + i]),
        tie: node.tie + u64::from(blocks[RANK + i]),
        places: moved,
    }
}

// Whether the block that is named, by its number and 1, is left out; where none is, by 0, it is not.
// A name stays a number, as the column of the search's list has it.
pub fn is_left(name: u32, set: u32) -> bool
    requires { name ≤ most_blocks }
    ensures { result ≡ names_left name set }
{
    if name == 0 {
        return false;
    }
    (set >> (name - 1)) % 2 == 0
}

// Whether the parent of block i is left out, or a twin that is taken before it.
pub fn is_barred(blocks: &[u32], i: usize, set: u32) -> bool
    requires { BlocksSized blocks.now × (i < most_blocks) }
    ensures { result ≡ is_barred blocks.now i set }
{
    is_left(blocks[PARENT + i], set) | is_left(blocks[AHEAD + i], set)
}

// Whether a twin that is taken after block i is taken; named as in `is_left`, by a number of the packed list.
pub fn is_due(blocks: &[u32], i: usize, set: u32) -> bool
    requires { BlocksSized blocks.now × (i < most_blocks) }
    ensures { result ≡ is_due blocks.now i set }
{
    let behind = blocks[BEHIND + i];
    if behind == 0 {
        return false;
    }
    (set >> (behind - 1)) % 2 == 1
}
