// The answer of the pool call as numbers.
ghost use Rattle.std.specs.Prelude.{◌≡◌, length};
ghost use Rattle.pooling.specs.Pool.{pool};
ghost use Rattle.pooling.specs.PoolCall.{pool_answer};
ghost use Rattle.boundary.specs.PoolExport.{pool_numbers};

use boundary::EvpPool;
use pooling::PoolRefusal;
use pooling_calls::length::pool_length;

// What pooling two sheets with this much room was answered, and how many bytes it wrote. No `From` of the answer: the bytes are those of
// the two sheets, which the answer does not have. `pool` does not return the length: it is asked for only where both sheets pass, so it never
// stands beside a refusal.
pub fn pool_numbers(
    answer: Result<(), PoolRefusal>,
    first: &[u8],
    second: &[u8],
    room: usize,
) -> EvpPool
    requires { answer ≡ pool_answer first.now second.now room }
    ensures { result ≡ pool_numbers answer (length (pool first.now second.now)) }
{
    match answer {
        Ok(()) => EvpPool {
            number: 0,
            place: 0,
            sheet: 0,
            bytes: pool_length(first, second) as u64,
        },
        Err(why) => EvpPool::from(why),
    }
}
