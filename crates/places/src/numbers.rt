// One of two numbers, by a side or a test: a choice where the search's loops would have a branch.
ghost use Rattle.std.specs.Prelude.{◌≡◌, cond};
ghost use Rattle.rules.specs.Hour.{by_side};
ghost use Rattle.orders.specs.Columns.{side_for};

// The first number for a buy, the second for a sell.
pub fn by_side(side: u8, a: u32, b: u32) -> u32
    ensures { result ≡ by_side (side_for side) a b }
{
    if side == 0 { a } else { b }
}

// The first number where the test passes, else the second.
pub fn choose(test: bool, a: u32, b: u32) -> u32
    ensures { result ≡ cond test a b }
{
    if test { a } else { b }
}
