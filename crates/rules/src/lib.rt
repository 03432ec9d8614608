// The auction's rules: definitions in specs/ and their laws in proofs/. No code runs here.
#![tactic(auto)]
