// How many bytes two sheets have when they are pooled.
ghost use Rattle.std.specs.Prelude.{◌≡◌, length};
ghost use Rattle.pooling.specs.Pool.{pool};
ghost use Rattle.pooling.specs.Late.{Regions};

use crate::pair::Pair;

// How long the pooled sheet is: the first sheet, and the second's rows.
pub fn pool_length(a: &[u8], b: &[u8]) -> usize
    requires { Regions a.now b.now }
    ensures { result ≡ length (pool a.now b.now) }
{
    Pair::of(a, b).length()
}
