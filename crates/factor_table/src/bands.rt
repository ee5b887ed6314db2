// Seven bands of micrograms as words.
ghost use Rattle.std.specs.Prelude.{◌≡◌};
ghost use Rattle.factor_table.specs.RowFactors.{in_words};

use inventory::Band;

// Each low before its high. All 14 are written out: `as_flattened` of seven pairs gives a slice, where C's answer holds an array, and
// `array::from_fn` would choose low or high by the parity of the place.
pub fn in_words(bands: [Band; 7]) -> [u64; 14]
    ensures { result ≡ in_words bands }
{
    let [a, b, c, d, e, f, g] = bands;
    [
        a.low, a.high, b.low, b.high, c.low, c.high, d.low, d.high, e.low, e.high, f.low, f.high,
        g.low, g.high,
    ]
}
