// The cash sheet of a book, or its refusal, as text.
#![tactic(auto)]

ghost use Rattle.std.specs.Prelude.{◌≤◌, length};
ghost use Rattle.text.specs.Text.{Put};
ghost use Rattle.gains.specs.Gains.{IsResult};
ghost use Rattle.cash.specs.CashSheet.{cash_sheet_of, most_cash};

use crate::lines::put_lines;
use accounts::accounts_of;
use clearing::clear_front;
use result::MOST_RESULT;
use sheet::put_refusal;

mod lines; // the lines of a cash sheet

// The most bytes that are written.
pub const MOST_CASH: usize = 22564;

// The cash sheet of an accepted book out of its result, from the start of the buffer.
fn put_sheet(out: &mut [u8], book: &[u8], res: &[u8]) -> usize
    requires { IsResult book.now res.now × (most_cash ≤ length out.old) }
    ensures { Put out.old 0 (cash_sheet_of book.now) out.new result }
{
    let accounts = accounts_of(book, res);
    put_lines(out, &accounts)
}

// What is written of a book's cash, and its length: the cash sheet under its published outcome, or the line of its refusal, from the start of the buffer on.
// It has no more than 22,564 bytes. The rest of the buffer stays as it was.
pub fn cash(book: &[u8], out: &mut [u8; MOST_CASH]) -> usize
    ensures put { Put out.old 0 (cash_sheet_of book.now) out.new result }
    ensures fits { result ≤ most_cash }
{
    let mut space = [0; MOST_RESULT];
    match clear_front(book, &mut space) {
        Ok(size) => put_sheet(out, book, &space[..size]),
        Err(why) => put_refusal(out, why),
    }
}
