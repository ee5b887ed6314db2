// What holds of every list of C calls on a ledger and on a shared ledger: laws alone, no code.
#![tactic(auto)]
