// Sets of blocks: which are taken, by their numbers. The blocks and their count are two of the fields that `Tables` lends: a struct of these two alone is no
// plainer.
ghost use Rattle.std.specs.Prelude.{◌≤◌, ◌<◌, ◌≡◌};
ghost use Rattle.book.specs.Bounds.{most_blocks};
ghost use Rattle.places.specs.Blocks.{BlocksSized};
ghost use Rattle.guess.specs.Sets.{gainers, less_block, all_with_parents};

use places::layout::{GAIN, MOST_BLOCKS, PARENT};

// The blocks that gain at the root prices.
pub fn gaining(blocks: &[u32], count: usize) -> [bool; MOST_BLOCKS]
    requires { BlocksSized blocks.now × (count ≤ most_blocks) }
    ensures { result ≡ gainers blocks.now count }
{
    let mut set = [false; MOST_BLOCKS];
    for i in 0..count {
        set[i] = 0 < blocks[GAIN + i];
    }
    set
}

// A set without a block.
pub fn without(set: [bool; MOST_BLOCKS], i: usize) -> [bool; MOST_BLOCKS]
    requires { i < most_blocks }
    ensures { result ≡ less_block set i }
{
    let mut r = set;
    r[i] = false;
    r
}

// A set without the blocks whose parents it does not hold; a parent stands before its children.
pub fn closed(blocks: &[u32], count: usize, set: [bool; MOST_BLOCKS]) -> [bool; MOST_BLOCKS]
    requires { BlocksSized blocks.now × (count ≤ most_blocks) }
    ensures { result ≡ all_with_parents blocks.now set count }
{
    let mut r = set;
    for i in 0..count {
        if let Some(parent) = blocks[PARENT + i].checked_sub(1) {
            r[i] = r[i] & r[parent as usize];
        }
    }
    r
}
