// What may be asked of a ledger: its definitions and their theorem stand here, the code in ledger_calls.
#![tactic(auto)]

ghost use Rattle.std.specs.Prelude.{◌≡◌};
ghost use Rattle.ledger.specs.Machine.{row_of};

// An arrival adds a count to a row, a departure takes one away: the row, counted from 0, and how many vehicles.
#[derive(Clone, Copy, Debug, PartialEq, Eq)]
pub enum Call {
    Arrival(u64, u64),
    Departure(u64, u64),
}

impl Call {
    // The row that the call names.
    #[tactic(auto, unfolding(crate::specs::Machine::row_of))]
    pub fn row(self) -> u64
        ensures { result ≡ row_of self }
    {
        match self {
            Call::Arrival(row, _) | Call::Departure(row, _) => row,
        }
    }
}
