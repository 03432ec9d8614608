// The family report of a book, or its refusal, as text.
#![tactic(auto)]

ghost use Rattle.std.specs.Prelude.{◌≤◌, length};
ghost use Rattle.text.specs.Text.{Put};
ghost use Rattle.gains.specs.Gains.{IsResult};
ghost use Rattle.family_sheet.specs.FamilySheet.{family_sheet_of, most_family_sheet};

use book::read;
use clearing::clear_front;
use families::put_families;
use gains::gains_of;
use orders::{blocks_of, parents_of};
use result::MOST_RESULT;
use sheet::put_refusal;
use text::put_text;

// The most bytes that are written.
pub const MOST_FAMILY_SHEET: usize = 587;

// The family report of an accepted book out of its result, from the start of the buffer.
fn put_report(out: &mut [u8], book: &[u8], res: &[u8]) -> usize
    requires { IsResult book.now res.now × (most_family_sheet ≤ length out.old) }
    ensures { Put out.old 0 (family_sheet_of book.now) out.new result }
{
    let blocks = blocks_of(book);
    let count = blocks.count;
    let records = blocks.records;
    let parents = parents_of(book);
    let gains = gains_of(book, res);
    let lines_at = put_text(out, 0, b"block;gain\n");
    put_families(
        out,
        lines_at,
        book,
        &records[..count],
        &parents[..count],
        &gains[..count],
    )
}

// What is written of a book's families, and its length: the family report under its published outcome, or the line of its refusal, from the start of the
// buffer on. It has no more than 587 bytes. The rest of the buffer stays as it was.
pub fn families(book: &[u8], out: &mut [u8; MOST_FAMILY_SHEET]) -> usize
    ensures put { Put out.old 0 (family_sheet_of book.now) out.new result }
    ensures fits { result ≤ most_family_sheet }
{
    // A refused book needs no room for a result, and not the stack of a clearing.
    if let Err(why) = read(book) {
        return put_refusal(out, why);
    }
    let mut space = [0; MOST_RESULT];
    match clear_front(book, &mut space) {
        Ok(size) => put_report(out, book, &space[..size]),
        Err(why) => put_refusal(out, why),
    }
}
