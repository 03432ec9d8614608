// The lines of the families, out of the columns of the blocks.
ghost use Rattle.std.specs.Prelude.{◌<◌, length};
ghost use Rattle.text.specs.Text.{HasRoom, Put};
ghost use Rattle.families.specs.Report.{family_line};
ghost use Rattle.families.specs.Lines.{line_at, all_lines, ColumnsHeld};

use crate::visit::visit;
use records::number_of;
use text::put_field;

// The line of a family.
fn put_family(out: &mut [u8], at: usize, number: u16, gain: u64) -> usize
    requires { HasRoom out.old at (family_line number gain) }
    ensures { Put out.old at (family_line number gain) out.new result }
{
    let behind_number = put_field(out, at, u64::from(number), b';');
    put_field(out, behind_number, gain, b'\n')
}

// The line of block i: one where it has no parent, else none. Its parent is one more than a place, 0 for none, as the column of parents promises it.
fn put_root(
    out: &mut [u8],
    at: usize,
    book: &[u8],
    records: &[u16],
    parents: &[u32],
    gains: &[u64],
    i: usize,
) -> usize
    requires columns { ColumnsHeld records.now parents.now gains.now × (i < length gains.now) }
    requires room { HasRoom out.old at (line_at book.now records.now parents.now gains.now i) }
    ensures { Put out.old at (line_at book.now records.now parents.now gains.now i) out.new result }
{
    if parents[i] == 0 {
        let gain = visit(parents, gains, i, gains.len() - 1 - i);
        return put_family(out, at, number_of(book, records[i]), gain);
    }
    at
}

// A line for each block without a parent, in their order.
pub fn put_families(
    out: &mut [u8],
    at: usize,
    book: &[u8],
    records: &[u16],
    parents: &[u32],
    gains: &[u64],
) -> usize
    requires columns { ColumnsHeld records.now parents.now gains.now }
    requires room { HasRoom out.old at (all_lines book.now records.now parents.now gains.now) }
    ensures { Put out.old at (all_lines book.now records.now parents.now gains.now) out.new result }
{
    let mut end = at;
    for i in 0..gains.len() {
        end = put_root(out, end, book, records, parents, gains, i);
    }
    end
}
