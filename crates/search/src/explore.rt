// Every way to decide the blocks that are left: a block taken, left out; a child only with its parent, and of twins only one way where the other is decided.
ghost use Rattle.std.specs.Prelude.{◌≡◌, ◌-◌, ◌≤◌, length};
ghost use Rattle.places.specs.Layout.{hour_list_size};
ghost use Rattle.branches.specs.Meaning.{Sized, Fits};
ghost use Rattle.branches.specs.Tables.{seen};
ghost use Rattle.search.specs.Meaning.{StepsFit, hour_steps, Held, Kept, ExploredFrom};

use crate::Best;
use crate::decide::{decide, limit_at};
use branches::Node;
use branches::judge::judge;
use branches::next::{is_barred, is_due, leave, take};
use orders::DaySteps;
use places::reach::is_out;
use places::tables::Tables;
use rivals::lookup::is_rivalled;

// Every way to decide the blocks that are left, each first taken and then left out; of twins, the one that is taken before the other first. A block that
// is out, or whose parent is left out, is only left out. A branch with a rival is not followed: the table has earlier ones, and none where it is empty. Each
// branch has its own node by value, so nothing is released. A unit of fuel is spent between the two ways to decide a block; where none is left the second way
// is not gone.
pub fn explore(
    tables: &Tables,
    steps: &DaySteps,
    table: &mut [u32],
    left: u32,
    out: u32,
    node: Node,
    best: Best,
) -> Best
    requires { Sized (seen tables.now) × (length tables.now.hours.now ≡ hour_list_size) × StepsFit steps.now × (left ≤ tables.now.count)
        × Fits (tables.now.count - left) node × Held best }
    ensures kept { Kept left best result }
    ensures explored { ExploredFrom (seen tables.now) (hour_steps steps.now) left out node best result }
{
    let limit = limit_at(best.limit, best.tie, node.tie);
    let Some(outs) = judge(tables, left, out, node, limit) else {
        return best;
    };
    if left == 0 {
        return decide(tables, steps, node, best);
    }
    let blocks = tables.blocks;
    if is_rivalled(blocks, table, tables.count, left, node) {
        return best;
    }
    let at = tables.count - left;
    let after = left - 1;
    let still = outs / 2;
    let without = leave(blocks, at, node);
    if is_out(outs, 0) | is_barred(blocks, at as usize, node.set) {
        return explore(tables, steps, table, after, still, without, best);
    }
    let with = take(blocks, at, node);
    let mut taken = explore(tables, steps, table, after, still, with, best);
    if taken.fuel == 0 {
        return taken;
    }
    if is_due(blocks, at as usize, node.set) {
        return taken;
    }
    taken.fuel -= 1;
    explore(tables, steps, table, after, still, without, taken)
}
