// Texts in a buffer of the caller: numbers in decimal, the lines of the program `report`, and a text that is written whole or not at all. A
// writer counts on behind the end of its buffer, so the same code finds how long a text is: it writes to a buffer of no byte.
#![tactic(auto)]

pub mod lines;
pub mod whole;
pub mod writer;
