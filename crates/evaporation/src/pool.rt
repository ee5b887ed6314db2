// The pool call for a program in another language.
ghost use Rattle.boundary.specs.PoolExport.{PoolNumbers};

use boundary::EvpPool;
use boundary_calls::pool::pool_numbers;

// The pool call.
#[unsafe(no_mangle)]
pub extern "C" fn evp_pool(first: &[u8], second: &[u8], pool: &mut [u8]) -> EvpPool
    ensures { PoolNumbers first.now second.now pool.old pool.new result }
{
    let room = pool.len();
    let answer = pooling_calls::pool(first, second, pool);
    pool_numbers(answer, first, second, room)
}
