// The lines of a sheet, out of a book and the bytes of its result.
ghost use Rattle.std.specs.Prelude.{◌≡◌};
ghost use Rattle.sheet.specs.Lines.{taken_at, hour_lines_in, all_block_lines, lines_in};
ghost use Rattle.sheet.specs.Sheet.{hour_line, block_line};
ghost use Rattle.text.specs.Text.{HasRoom, Put};

use orders::blocks_of;
use orders::layout::LAST_HOUR_BYTE;
use records::{block_quantity, number_of};
use result::{price_in, row_in, traded_in, welfare_in};
use text::{put_field, put_line, put_text};

// The line of hour h.
fn put_hour(out: &mut [u8], at: usize, h: u8, price: u32, traded: u32) -> usize
    requires { HasRoom out.old at (hour_line h price traded) }
    ensures { Put out.old at (hour_line h price traded) out.new result }
{
    let behind_hour = put_field(out, at, u64::from(h), b';');
    let behind_price = put_field(out, behind_hour, u64::from(price), b';');
    put_field(out, behind_price, u64::from(traded), b'\n')
}

// The lines of the 24 hours.
fn put_hours(out: &mut [u8], at: usize, res: &[u8]) -> usize
    requires { HasRoom out.old at (hour_lines_in res.now) }
    ensures { Put out.old at (hour_lines_in res.now) out.new result }
{
    let mut end = at;
    for h in 0..LAST_HOUR_BYTE {
        let hour = h + 1;
        end = put_hour(out, end, hour, price_in(res, hour), traded_in(res, hour));
    }
    end
}

// Whether the block of record k is taken.
fn is_taken(book: &[u8], res: &[u8], k: u16) -> bool
    ensures { result ≡ taken_at book.now res.now k }
{
    row_in(res, k) == u32::from(block_quantity(book, k))
}

// The line of a block.
fn put_block(out: &mut [u8], at: usize, number: u16, taken: bool) -> usize
    requires { HasRoom out.old at (block_line number taken) }
    ensures { Put out.old at (block_line number taken) out.new result }
{
    let behind_number = put_field(out, at, u64::from(number), b';');
    put_field(out, behind_number, u64::from(taken), b'\n')
}

// The lines of the book's blocks.
fn put_blocks(out: &mut [u8], at: usize, book: &[u8], res: &[u8]) -> usize
    requires { HasRoom out.old at (all_block_lines book.now res.now) }
    ensures { Put out.old at (all_block_lines book.now res.now) out.new result }
{
    let blocks = blocks_of(book);
    let mut end = at;
    for i in 0..blocks.count {
        let k = blocks.records[i];
        let taken = is_taken(book, res, k);
        end = put_block(out, end, number_of(book, k), taken);
    }
    end
}

// All lines, from the start of the buffer.
pub fn put_lines(out: &mut [u8], book: &[u8], res: &[u8]) -> usize
    requires { HasRoom out.old 0 (lines_in book.now res.now) }
    ensures { Put out.old 0 (lines_in book.now res.now) out.new result }
{
    let hours_at = put_text(out, 0, b"hour;cents;tenths\n");
    let title_at = put_hours(out, hours_at, res);
    let blocks_at = put_text(out, title_at, b"block;taken\n");
    let welfare_at = put_blocks(out, blocks_at, book, res);
    put_line(out, welfare_at, b"welfare;", welfare_in(res))
}
