// cash-print: a book on standard input, its cash sheet or its refusal on standard output.
#![tactic(auto)]

use cash::{MOST_CASH, cash};
use input::read_full;

// A book has at most 32,768 bytes. One more is read, so that a longer input is refused by the library. What cannot be written is lost.
fn main(rt: HostRuntime) {
    let mut book = [0u8; 32769];
    let length = read_full(&mut rt.stdin(), &mut book);
    let mut out = [0u8; MOST_CASH];
    let count = cash(&book[..length], &mut out);
    let _ = rt.write_all(&out[..count]);
}
