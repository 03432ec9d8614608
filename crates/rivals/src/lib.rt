// Whether a branch of the search has a rival: other decisions on the same blocks that come to the same place in every hour and cost less, so that every
// lawful completion of the branch has a lawful set that costs less, and the branch need not be followed. Rivals are looked up in a table of earlier
// branches. What it holds is a hint only, checked anew each time: a wrong one costs a check, never an answer. Assumes nothing.
#![tactic(auto)]

pub mod lookup; // whether a branch has a rival in the table
mod compare; // the tests of a rival
mod replay; // the branch of a rival's decisions
mod slots; // where the table has it
