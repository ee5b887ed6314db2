// The seven emission factors of a season and row as whole numbers, and that they enclose the exact ones: definitions and laws.
#![tactic(auto)]
