// What pooling two sheets refuses. The pooled sheet, where pooling stops and what the pooled report is are defined in specs/; the code is in
// the crate pooling_calls.
#![tactic(auto)]

use refusals::Refusal;

// Which sheet is refused, and why.
#[derive(Clone, Copy, Debug, PartialEq, Eq)]
pub enum PoolRefusal {
    // The first sheet: its place is counted from its start.
    First(Refusal),
    // The first passes and the second is refused, with a place counted from the second's start.
    Second(Refusal),
    // Both pass, and the two together are refused: a check of the pooled sheet has its place there.
    Pooled(Refusal),
}

// What pooling answers: the pooled sheet is written, or why it is not.
pub type PoolAnswer = Result<(), PoolRefusal>;
