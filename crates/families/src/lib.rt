// The families of a book's blocks: a block and everything below it; their gains, and their lines. Assumes nothing.
#![tactic(auto)]

mod lines; // the lines of the families
mod visit; // a family's gain, from a block to its children and from each child onward

pub use lines::put_families;
