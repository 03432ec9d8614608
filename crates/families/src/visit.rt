// A FAMILY'S GAIN: one function visits a block, another its child list. They call each other while the blocks that are left get fewer: a child stands behind
// its parent. Both take a column of parents and one of gains; a block's parent is one more than its place, 0 for none.
ghost use Rattle.std.specs.Prelude.{◌≡◌, ◌+◌, ◌^◌, ◌<◌, length};
ghost use Rattle.families.specs.Visit.{visit_gain, children_gain};

// The gain of block i and everything below it; `left` blocks stand behind it.
#[cycle(visit_visit_children)]
pub fn visit(parents: &[u32], gains: &[u64], i: usize, left: usize) -> u64
    requires columns { (length parents.now ≡ length gains.now) × (i + 1 + left ≡ length gains.now) }
    requires fits { visit_gain parents.now gains.now left i < 2 ^ 64 }
    ensures { result ≡ visit_gain parents.now gains.now left i }
{
    gains[i] + visit_children(parents, gains, i, i + 1, left)
}

// The gains of the children of block i among the `left` blocks from j on, each with everything below it.
#[cycle(visit_visit_children)]
fn visit_children(parents: &[u32], gains: &[u64], i: usize, j: usize, left: usize) -> u64
    requires columns { (length parents.now ≡ length gains.now) × (j + left ≡ length gains.now) × (i < j) }
    requires fits { children_gain parents.now gains.now left i j < 2 ^ 64 }
    ensures { result ≡ children_gain parents.now gains.now left i j }
{
    if left == 0 {
        return 0;
    }
    let later = visit_children(parents, gains, i, j + 1, left - 1);
    if parents[j] as usize == i + 1 {
        return visit(parents, gains, j, left - 1) + later;
    }
    later
}
