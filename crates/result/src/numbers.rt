// The numbers of a result read again: the welfare, the price and the traded quantity of an hour, the row of a record. Every call takes any bytes; a missing
// byte reads as 0. Assumes nothing.
ghost use Rattle.std.specs.Prelude.{◌≡◌, ◌^◌, ◌<◌};
ghost use Rattle.records.specs.Bytes.{u32_at};
ghost use Rattle.result.specs.Result.{welfare_in, price_in, traded_in, row_in};

use crate::layout::{HALF, HOUR_ROW, RECORD_ROW, RECORD_ROWS, TRADED};
use records::u32_at;

// What the higher half of the welfare counts.
const HIGHER: u64 = 4294967296;

// The number that stands at a place of a result.
fn number_at(res: &[u8], at: usize) -> u32
    requires { at < 2 ^ 32 }
    ensures { result ≡ u32_at res.now at }
{
    u32_at(res, at as u32)
}

// The welfare: the 8 bytes at the start.
pub fn welfare_in(res: &[u8]) -> u64
    ensures { result ≡ welfare_in res.now }
{
    let high = number_at(res, 0);
    let low = number_at(res, HALF);
    u64::from(high) * HIGHER + u64::from(low)
}

// The price of hour h.
pub fn price_in(res: &[u8], h: u8) -> u32
    ensures { result ≡ price_in res.now h }
{
    number_at(res, HOUR_ROW * usize::from(h))
}

// The traded quantity of hour h, 4 bytes behind its price.
pub fn traded_in(res: &[u8], h: u8) -> u32
    ensures { result ≡ traded_in res.now h }
{
    number_at(res, HOUR_ROW * usize::from(h) + TRADED)
}

// The row of record k.
pub fn row_in(res: &[u8], k: u16) -> u32
    ensures { result ≡ row_in res.now k }
{
    number_at(res, RECORD_ROWS + RECORD_ROW * usize::from(k))
}
