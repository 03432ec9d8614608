// The public calls for programs in other languages: numbers and byte slices only. Assumes nothing.
#![tactic(auto)]

ghost use Rattle.std.specs.Prelude.{◌≡◌, ◌<◌, ◌^◌, cond, eqb, length};
ghost use Rattle.book.specs.Numbers.{refusal_number};
ghost use Rattle.book.specs.Refusals.{refusal};
ghost use Rattle.result.specs.Promise.{clear_refusal, result_after, Demands};
ghost use Rattle.pricing.specs.Answers.{hour_answer};
ghost use Rattle.range.specs.Range.{range_of};
ghost use Rattle.sheet.specs.Sheet.{sheet_of};
ghost use Rattle.family_sheet.specs.FamilySheet.{family_sheet_of};
ghost use Rattle.cash.specs.CashSheet.{cash_sheet_of};
ghost use Rattle.exports.specs.Parts.{answer_part, range_part, buffer_after};

use book::{Refusal, read};
use cash::{MOST_CASH, cash};
use clearing::clear;
use family_sheet::{MOST_FAMILY_SHEET, families};
use pricing::price;
use range::price_range;
use sheet::{MOST_SHEET, sheet};
use text::put_text;

// The parts of the answer of a pricing call: which it is; L, H and the price.
const ANSWER: u32 = 0;

const LOW: u32 = 1;

const HIGH: u32 = 2;

const PRICE: u32 = 3;

// .. and of a price range: which it is; the least price and the greatest.
const LEAST: u32 = 1;

const GREATEST: u32 = 2;

// What the first part says of an hour that does not clear: no refusal, since those are bytes.
const NOT_CLEARING: u32 = 256;

// The papers' number of a refusal, as the calls give it.
fn number_of(why: Refusal) -> u32
    ensures { result ≡ refusal_number why }
{
    u32::from(u8::from(why))
}

// A part of an answer that has the first part alone.
fn first_alone(part: u32, first: u32) -> u32
    ensures { result ≡ cond (eqb part 0) first 0 }
{
    if part == ANSWER { first } else { 0 }
}

// The book's refusal, 0 for an accepted book.
#[unsafe(no_mangle)]
pub extern "C" fn auction_read(book: &[u8]) -> u32
    ensures { result ≡ refusal book.now }
{
    match read(book) {
        Ok(_) => 0,
        Err(why) => number_of(why),
    }
}

// One part of the answer of a pricing call.
#[unsafe(no_mangle)]
pub extern "C" fn auction_price(book: &[u8], set: u32, hour: u32, part: u32) -> u32
    ensures { result ≡ answer_part (hour_answer book.now set hour) part }
{
    match price(book, set, hour) {
        Ok(Some(found)) => match part {
            LOW => found.low,
            HIGH => found.high,
            PRICE => found.price,
            _ => 0,
        },
        Ok(None) => first_alone(part, NOT_CLEARING),
        Err(why) => first_alone(part, number_of(why)),
    }
}

// One part of the price range of a list of uncertain steps.
#[unsafe(no_mangle)]
pub extern "C" fn auction_range(list: &[u8], part: u32) -> u32
    ensures { result ≡ range_part (range_of list.now) part }
{
    match price_range(list) {
        Ok(found) => match part {
            LEAST => found.least,
            GREATEST => found.greatest,
            _ => 0,
        },
        Err(refusal) => first_alone(part, number_of(refusal)),
    }
}

// The clearing's refusal, 0 where the outcome is published into the result. What is published meets demands 2 and 3.
#[unsafe(no_mangle)]
pub extern "C" fn auction_clear(book: &[u8], res: &mut [u8]) -> u32
    ensures answer { result ≡ clear_refusal book.now res.old }
    ensures bytes { res.new ≡ result_after book.now res.old }
    ensures demands { result ≡ 0 → Demands book.now res.new }
{
    match clear(book, res) {
        Ok(()) => 0,
        Err(refusal) => number_of(refusal),
    }
}

// Bytes put at the start of `out` where they have room, else it stays as it was; how many they are.
fn put_where_room(out: &mut [u8], bytes: &[u8]) -> u32
    requires { length bytes.now < 2 ^ 32 }
    ensures answer { result ≡ length bytes.now }
    ensures bytes { out.new ≡ buffer_after bytes.now out.old }
{
    let count = bytes.len();
    if out.len() < count {
        return count as u32;
    }
    put_text(out, 0, bytes);
    count as u32
}

// The length of what is written of a book, at most 781. The bytes are put at the start of `out` where they have room; else it stays as it was.
#[unsafe(no_mangle)]
pub extern "C" fn auction_sheet(book: &[u8], out: &mut [u8]) -> u32
    ensures answer { result ≡ length (sheet_of book.now) }
    ensures bytes { out.new ≡ buffer_after (sheet_of book.now) out.old }
{
    let mut bytes = [0u8; MOST_SHEET];
    let count = sheet(book, &mut bytes);
    put_where_room(out, &bytes[..count])
}

// The length of what is written of a book's families, at most 587. The bytes are put at the start of `out` where they have room; else it stays as it was.
#[unsafe(no_mangle)]
pub extern "C" fn auction_families(book: &[u8], out: &mut [u8]) -> u32
    ensures answer { result ≡ length (family_sheet_of book.now) }
    ensures bytes { out.new ≡ buffer_after (family_sheet_of book.now) out.old }
{
    let mut bytes = [0u8; MOST_FAMILY_SHEET];
    let written = families(book, &mut bytes);
    put_where_room(out, &bytes[..written])
}

// The length of what is written of a book's cash, at most 22,564. The bytes are put at the start of `out` where they have room; else it stays as it was.
#[unsafe(no_mangle)]
pub extern "C" fn auction_cash(book: &[u8], out: &mut [u8]) -> u32
    ensures answer { result ≡ length (cash_sheet_of book.now) }
    ensures bytes { out.new ≡ buffer_after (cash_sheet_of book.now) out.old }
{
    let mut bytes = [0u8; MOST_CASH];
    let length = cash(book, &mut bytes);
    put_where_room(out, &bytes[..length])
}
