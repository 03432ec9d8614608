// The columns and rows of the blocks in an order.
ghost use Rattle.std.specs.Prelude.{◌≤◌};
ghost use Rattle.book.specs.Bounds.{most_blocks};
ghost use Rattle.places.specs.Blocks.{BlocksSized};
ghost use Rattle.order.specs.Order.{EachBelow, Words, IsOrderOf, Reordered};
ghost use Rattle.order.specs.Written.{ColumnsIn, LinksIn, RowsIn};

use crate::names::{earlier_name, placed_name, rank_of};
use crate::{Listed, Order};
use places::layout::{
    AHEAD, BEHIND, BLOCK_LIST, BLOCK_ROWS, HOURS, MOST_BLOCKS, PARENT, RANK, SIX_COLUMNS,
};

// The first six columns in an order, with room for the others.
fn columns_in(listed: &Listed, order: &Order) -> [u32; BLOCK_LIST]
    requires { EachBelow listed.now.count listed.now.count order.now.blocks }
    ensures { ColumnsIn listed.now.count order.now.blocks listed.now.blocks.now result }
{
    let mut r = [0; BLOCK_LIST];
    for k in 0..SIX_COLUMNS {
        let j = k % MOST_BLOCKS;
        if j < listed.count {
            r[k] = listed.blocks[k - j + order.blocks[j]];
        }
    }
    r
}

// The same with the parent of each block, its twins where they stand before it, and its rank by number.
fn with_links(columns: [u32; BLOCK_LIST], listed: &Listed, order: &Order) -> [u32; BLOCK_LIST]
    requires { IsOrderOf listed.now.blocks.now listed.now.count order.now.blocks order.now.places × ColumnsIn listed.now.count order.now.blocks listed.now.blocks.now columns }
    ensures { LinksIn listed.now.count order.now.blocks order.now.places listed.now.blocks.now columns result }
{
    let mut r = columns;
    for j in 0..listed.count {
        let i = order.blocks[j];
        r[PARENT + j] = placed_name(order, listed.blocks[PARENT + i]);
        r[AHEAD + j] = earlier_name(order, listed.count, j, listed.blocks[AHEAD + i]);
        r[BEHIND + j] = earlier_name(order, listed.count, j, listed.blocks[BEHIND + i]);
        r[RANK + j] = rank_of(i as u32);
    }
    r
}

// The same with the row of each block.
fn with_rows(linked: [u32; BLOCK_LIST], listed: &Listed, order: &Order) -> [u32; BLOCK_LIST]
    requires { EachBelow listed.now.count listed.now.count order.now.blocks }
    ensures { RowsIn listed.now.count order.now.blocks listed.now.blocks.now linked result }
{
    let mut r = linked;
    for k in 0..HOURS * listed.count {
        let row = BLOCK_ROWS + HOURS * order.blocks[k / HOURS];
        r[BLOCK_ROWS + k] = listed.blocks[row + k % HOURS];
    }
    r
}

// The columns and rows of the blocks in an order.
pub fn reordered(blocks: &[u32], order: &Order, count: usize) -> [u32; BLOCK_LIST]
    requires { BlocksSized blocks.now × (count ≤ most_blocks) × IsOrderOf blocks.now count order.now.blocks order.now.places }
    ensures { BlocksSized result × Reordered count order.now.blocks order.now.places blocks.now result × Words result }
{
    let listed = Listed { blocks, count };
    let columns = columns_in(&listed, order);
    let linked = with_links(columns, &listed, order);
    with_rows(linked, &listed, order)
}
