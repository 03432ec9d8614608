// family-print: a book on standard input, its family report or its refusal on standard output.
#![tactic(auto)]

use family_sheet::{MOST_FAMILY_SHEET, families};
use input::read_full;

// A book has at most 32,768 bytes. One more is read, so that a longer input is refused by the library. What cannot be written is lost.
fn main(rt: HostRuntime) {
    let mut book = [0u8; 32769];
    let length = read_full(&mut rt.stdin(), &mut book);
    let mut out = [0u8; MOST_FAMILY_SHEET];
    let count = families(&book[..length], &mut out);
    let _ = rt.write_all(&out[..count]);
}
