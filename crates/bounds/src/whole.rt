// E at whole exponents from below, as a constant table.
ghost use Rattle.std.specs.Prelude.{◌≡◌, ◌^◌, ◌<◌, get_or};
ghost use Rattle.bounds.specs.WholeExponents.{far};

// 2^30 E(c) from below, for c from 0 to 14
static FAR: [u64; 15] = [
    1073741824,
    2918732888,
    7933938573,
    21566681051,
    58624317203,
    159357416160,
    433178368579,
    1177500887789,
    3200779266273,
    8700620116419,
    23650737558785,
    64289370135495,
    174756626595083,
    475037762280381,
    1291286512936591,
];

// 2^30 E(c) from below.
pub fn far(c: usize) -> u64
    requires { c < 15 }
    ensures { (result ≡ get_or far c 0) × (result < 2 ^ 51) }
{
    FAR[c]
}
