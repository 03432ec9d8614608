// The sheet: a book's published outcome, or its refusal, as text.
#![tactic(auto)]

ghost use Rattle.std.specs.Prelude.{◌≤◌};
ghost use Rattle.book.specs.Numbers.{refusal_number};
ghost use Rattle.sheet.specs.Sheet.{refused_line, sheet_of, most_sheet};
ghost use Rattle.text.specs.Text.{HasRoom, Put};

use crate::lines::put_lines;
use book::{Refusal, read};
use clearing::clear_front;
use result::MOST_RESULT;
use text::put_line;

mod lines; // the lines of a sheet

// The most bytes of a sheet.
pub const MOST_SHEET: usize = 781;

// The line of a refusal, from the start of the buffer.
pub fn put_refusal(out: &mut [u8], why: Refusal) -> usize
    requires { HasRoom out.old 0 (refused_line (refusal_number why)) }
    ensures { Put out.old 0 (refused_line (refusal_number why)) out.new result }
{
    put_line(out, 0, b"refused;", u64::from(u8::from(why)))
}

// What is written of a book, and its length: the sheet of its published outcome, or the line of its refusal, from the start of the buffer on. No sheet
// has more than 781 bytes. The rest of the buffer stays as it was.
pub fn sheet(book: &[u8], out: &mut [u8; MOST_SHEET]) -> usize
    ensures put { Put out.old 0 (sheet_of book.now) out.new result }
    ensures fits { result ≤ most_sheet }
{
    // A refused book needs no room for a result, and not the stack of a clearing.
    if let Err(why) = read(book) {
        return put_refusal(out, why);
    }
    let mut space = [0; MOST_RESULT];
    match clear_front(book, &mut space) {
        Ok(size) => put_lines(out, book, &space[..size]),
        Err(why) => put_refusal(out, why),
    }
}
