// The lines of a cash sheet, out of the accounts.
ghost use Rattle.std.specs.Prelude.{◌≡◌, length};
ghost use Rattle.fields.specs.Bounds.{last_portfolio};
ghost use Rattle.accounts.specs.Layout.{account_places};
ghost use Rattle.text.specs.Text.{HasRoom, Put};
ghost use Rattle.cash.specs.CashSheet.{cash_fields};
ghost use Rattle.cash.specs.Lines.{cash_at, line_at, lines_up_to, text_in};

use accounts::layout::{BOUGHT, LAST_PORTFOLIO, ORDERS, PAID, RECEIVED, SOLD, TOTALS};
use accounts::number_in;
use text::{put_field, put_text};

// The four numbers of account p, to the end of the line.
fn put_cash(out: &mut [u8], at: usize, accounts: &[u64], p: u8) -> usize
    requires { (length accounts.now ≡ account_places) × HasRoom out.old at (cash_fields (cash_at accounts.now p)) }
    ensures { Put out.old at (cash_fields (cash_at accounts.now p)) out.new result }
{
    let behind_bought = put_field(out, at, number_in(accounts, BOUGHT, p), b';');
    let behind_sold = put_field(out, behind_bought, number_in(accounts, SOLD, p), b';');
    let behind_paid = put_field(out, behind_sold, number_in(accounts, PAID, p), b';');
    put_field(out, behind_paid, number_in(accounts, RECEIVED, p), b'\n')
}

// The line of portfolio p; none where it has no order.
fn put_portfolio(out: &mut [u8], at: usize, accounts: &[u64], p: u8) -> usize
    requires { (length accounts.now ≡ account_places) × HasRoom out.old at (line_at accounts.now p) }
    ensures { Put out.old at (line_at accounts.now p) out.new result }
{
    if number_in(accounts, ORDERS, p) == 0 {
        return at;
    }
    let behind_number = put_field(out, at, p as u64, b';');
    put_cash(out, behind_number, accounts, p)
}

// The lines of all portfolios, in rising order.
fn put_portfolios(out: &mut [u8], at: usize, accounts: &[u64]) -> usize
    requires { (length accounts.now ≡ account_places) × HasRoom out.old at (lines_up_to accounts.now last_portfolio) }
    ensures { Put out.old at (lines_up_to accounts.now last_portfolio) out.new result }
{
    let mut end = at;
    for p in 0..LAST_PORTFOLIO {
        end = put_portfolio(out, end, accounts, p + 1);
    }
    end
}

// All lines, from the start of the buffer.
pub fn put_lines(out: &mut [u8], accounts: &[u64]) -> usize
    requires { (length accounts.now ≡ account_places) × HasRoom out.old 0 (text_in accounts.now) }
    ensures { Put out.old 0 (text_in accounts.now) out.new result }
{
    let lines_at = put_text(out, 0, b"portfolio;bought;sold;paid;received\n");
    let totals_at = put_portfolios(out, lines_at, accounts);
    let behind_word = put_text(out, totals_at, b"all;");
    put_cash(out, behind_word, accounts, TOTALS)
}
