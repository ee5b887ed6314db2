// The answers of the reads of a shared ledger as numbers. A refused read returns its number and place, and zeros.
ghost use Rattle.boundary.specs.Shared.{row_numbers, totals_numbers};
ghost use Rattle.std.specs.Prelude.{◌≡◌};

use crate::answers::told;
use crate::{EvpCheck, EvpRow, EvpTotals};
use refusals::Refusal;
use shared_ledger::RowRead;

impl From<Result<RowRead, Refusal>> for EvpRow {
    ghost from_gives = { λ answer row. row ≡ row_numbers answer };

    #[tactic(auto, unfolding(crate::specs::Shared::row_numbers, crate::specs::Shared::count_told, crate::specs::Shared::words_told, crate::specs::Shared::zeros, numbers::specs::Lists::tab, refusals::specs::Check::number_of, refusals::specs::Check::place_of))]
    fn from(answer: Result<RowRead, Refusal>) -> EvpRow {
        let EvpCheck { number, place } = told(&answer);
        let RowRead { count, words } = answer.unwrap_or(RowRead {
            count: 0,
            words: [0; 6],
        });
        EvpRow {
            number,
            place,
            count,
            words,
        }
    }
}

impl From<Result<[u64; 26], Refusal>> for EvpTotals {
    ghost from_gives = { λ answer totals. totals ≡ totals_numbers answer };

    #[tactic(auto, unfolding(crate::specs::Shared::totals_numbers, crate::specs::Shared::words_of_totals, crate::specs::Shared::zeros, numbers::specs::Lists::tab, refusals::specs::Check::number_of, refusals::specs::Check::place_of))]
    fn from(answer: Result<[u64; 26], Refusal>) -> EvpTotals {
        let EvpCheck { number, place } = told(&answer);
        EvpTotals {
            number,
            place,
            words: answer.unwrap_or([0; 26]),
        }
    }
}
