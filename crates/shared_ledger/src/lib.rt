// Who calls a shared ledger, and what a read of it returns. The definitions and the theorems are in this crate, the code in shared_ledger_calls.
#![tactic(auto)]

ghost use Rattle.std.specs.Prelude.{◌≡◌};
ghost use Rattle.shared_ledger.specs.Caller.{who_of};

use std::num::NonZeroU64;

// Who makes a call: the marker, or a participant. Those who own rows have the numbers 1 to 8; any other has no right to anything.
#[derive(Clone, Copy)]
pub enum Caller {
    Marker,
    Participant(NonZeroU64),
}

// The caller of a number, where the marker's is 0.
impl From<u64> for Caller {
    ghost from_gives = { λ number caller. who_of caller ≡ number };

    #[tactic(auto, unfolding(crate::specs::Caller::who_of))]
    fn from(number: u64) -> Caller {
        match NonZeroU64::new(number) {
            None => Caller::Marker,
            Some(participant) => Caller::Participant(participant),
        }
    }
}

// What a read of a row returns: its count and its six words.
#[derive(Clone, Copy, Debug, PartialEq, Eq)]
pub struct RowRead {
    pub count: u64,
    pub words: [u64; 6],
}
