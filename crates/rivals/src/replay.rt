// The branch of a set's decisions on the first blocks, decided anew from nothing. Assumes nothing.
ghost use Rattle.std.specs.Prelude.{◌≡◌, ◌+◌, ◌≤◌, ◌<◌};
ghost use Rattle.book.specs.Bounds.{most_blocks};
ghost use Rattle.places.specs.Blocks.{BlocksSized};
ghost use Rattle.rivals.specs.Tests.{holds, Replays};

use branches::Node;
use branches::next::{leave, take};
use places::layout::HOURS;

// Whether a set holds block j.
pub fn takes(set: u32, j: u32) -> bool
    requires { j < most_blocks }
    ensures { result ≡ holds set j }
{
    (set >> j) % 2 == 1
}

// The node with one more block decided as in the set.
fn with_next(blocks: &[u32], at: u32, set: u32, node: Node) -> Node
    requires { BlocksSized blocks.now × (at < most_blocks) × Replays blocks.now at set node }
    ensures { Replays blocks.now (at + 1) set result }
{
    if takes(set, at) {
        return take(blocks, at, node);
    }
    leave(blocks, at, node)
}

// The node of the set's decisions on the first blocks, at of them; what else the set has does not count.
pub fn replayed(blocks: &[u32], at: u32, set: u32) -> Node
    requires { BlocksSized blocks.now × (at ≤ most_blocks) }
    ensures { Replays blocks.now at set result }
{
    let mut node = Node {
        set: 0,
        loss: 0,
        tie: 0,
        places: [0; HOURS],
    };
    for i in 0..at {
        node = with_next(blocks, i, set, node);
    }
    node
}
