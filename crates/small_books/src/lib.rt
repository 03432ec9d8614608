// Small books, decided by the definitions alone, in proofs/. No code runs here.
#![tactic(auto)]
