// Fractions, lists and sums: definitions and their laws. There is no code here.
#![tactic(auto)]
