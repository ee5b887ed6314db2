// What the marker trusts about a row, of its cells: laws alone, no code.
#![tactic(auto)]
