// Pooling two sheets: the first's rows, then the second's, under the parking and the seasons of both.
#![tactic(auto)]

ghost use Rattle.pooling.specs.PoolCall.{PoolCall};

use crate::check::pool_answer;
use crate::pair::Pair;
use pooling::PoolAnswer;

mod check;
pub mod length;
mod pair;

// The pooled sheet's bytes, or a refusal that leaves the buffer as it is.
pub fn pool(a: &[u8], b: &[u8], out: &mut [u8]) -> PoolAnswer
    ensures { PoolCall a.now b.now out.old out.new result }
{
    pool_answer(a, b, out.len())?;
    Pair::of(a, b).write(out);
    Ok(())
}
