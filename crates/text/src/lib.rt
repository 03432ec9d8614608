// Words and numbers put into a buffer: each call puts its bytes from `at` on and gives the place behind them.
#![tactic(auto)]

ghost use Rattle.std.specs.Prelude.{◌++◌};
ghost use Rattle.text.specs.Text.{decimal, field, line_feed, HasRoom, Put};

// The bytes of `words`.
#[tactic(auto, unfolding(crate::specs::Text::HasRoom))]
pub fn put_text(out: &mut [u8], at: usize, words: &[u8]) -> usize
    requires { HasRoom out.old at words.now }
    ensures { Put out.old at words.now out.new result }
{
    let behind = at + words.len();
    out[at..behind].copy_from_slice(words);
    behind
}

// The decimal digits of n.
fn put_decimal(out: &mut [u8], at: usize, n: u64) -> usize
    requires { HasRoom out.old at (decimal n) }
    ensures { Put out.old at (decimal n) out.new result }
{
    if n < 10 {
        out[at] = b'0' + (n % 10) as u8;
        return at + 1;
    }
    let last = put_decimal(out, at, n / 10);
    out[last] = b'0' + (n % 10) as u8;
    last + 1
}

// The number n and the byte that ends its field.
pub fn put_field(out: &mut [u8], at: usize, n: u64, end: u8) -> usize
    requires { HasRoom out.old at (field n end) }
    ensures { Put out.old at (field n end) out.new result }
{
    let behind = put_decimal(out, at, n);
    out[behind] = end;
    behind + 1
}

// The words, and the number n to the end of the line.
pub fn put_line(out: &mut [u8], at: usize, words: &[u8], n: u64) -> usize
    requires { HasRoom out.old at (words.now ++ field n line_feed) }
    ensures { Put out.old at (words.now ++ field n line_feed) out.new result }
{
    let behind_words = put_text(out, at, words);
    put_field(out, behind_words, n, b'\n')
}
