// What a program in Rust or C can call: the exponential over many exponents at once.
#![tactic(auto)]

ghost use Rattle.std.specs.Prelude.{◌≡◌};
ghost use Rattle.bench_exponentials.specs.Total.{served, total};

use bounds::exp::exponential;

// The first exponent that is not served
const LIMIT: u64 = 2010000000000000;

fn served(x: u64) -> u64
    ensures { result ≡ served x }
{
    if x < LIMIT { exponential(x) } else { 0 }
}

fn total(xs: &[u64]) -> u64
    ensures { result ≡ total xs.now }
{
    let mut sum: u64 = 0;
    for &x in xs {
        sum = sum.wrapping_add(served(x));
    }
    sum
}

// The sum of the exponentials, of which 64 bits are kept. An exponent that is not served counts as 0.
#[unsafe(no_mangle)]
pub extern "C" fn exponentials_sum(xs: &[u64]) -> u64
    ensures { result ≡ total xs.now }
{
    total(xs)
}
