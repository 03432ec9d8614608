// The sheets of the books that the arguments name, one after another: what `auction_print` writes of each. The gate compares them with the file stdout,
// the sheets of ../../samples in the order of the file args; data/ has copies of the books.
#![tactic(auto)]

ghost use Rattle.std.specs.Prelude.{◌≤◌, length};

use input::read_full;
use sheet::{MOST_SHEET, sheet};
use std::env::FillError;
use std::fs::File;
use std::rt::{Env, Files};

// Puts the book in the file of this name at the start of the buffer, and gives its length: 0 where it cannot be read, or the name is no text.
fn read_book(files: &impl Files, name: &[u8], book: &mut [u8]) -> usize
    ensures { result ≤ length book.new }
{
    let Ok(path) = str::from_utf8(name) else {
        return 0;
    };
    match File::open(files, path) {
        Ok(mut file) => read_full(&mut file, book),
        Err(_) => 0,
    }
}

// Prints the sheet of the book in the file of this name. A file that cannot be read is an empty book. What cannot be written is lost.
fn print_sheet(rt: &(impl Files + Print), name: &[u8]) {
    let mut book = [0u8; 32769];
    let length = read_book(rt, name, &mut book);
    let mut out = [0u8; MOST_SHEET];
    let count = sheet(&book[..length], &mut out);
    let _ = rt.write_all(&out[..count]);
}

fn main(rt: HostRuntime) {
    for i in 1..usize::MAX {
        let mut name = [0u8; 4096];
        match rt.arg(i, &mut name) {
            Ok(length) => print_sheet(&rt, &name[..length]),
            // No file has a name that is so long.
            Err(FillError::TooLong) => print_sheet(&rt, &[]),
            Err(FillError::NotPresent) => break,
        }
    }
}
