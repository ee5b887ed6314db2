// The species of a sheet: the reported high total, split.
ghost use Rattle.species_report.specs.Composition.{CompositionCall};

use fields::rows_of;
use inventory::report;
use refusals::Refusal;
use speciation::split;

// The species of an accepted sheet.
#[derive(Clone, Copy, Drop)]
pub struct Composition {
    // The high of the grand total, in milligrams.
    pub total: u64,
    // The species of Table 3-14 in printed order, in milligrams.
    pub milligrams: [u64; 29],
}

// Makes the report in words of the caller, with every check of that call, and splits its last word. The words are left as the report call
// leaves them. The sheet and the words come from C as two slices, for one call: a struct of the two would be no plainer.
pub fn species_of(s: &[u8], words: &mut [u64]) -> Result<Composition, Refusal>
    ensures { CompositionCall s.now words.old words.new result }
{
    report(s, words)?;
    let last = 6 * rows_of(s) + 25;
    let total = words[last];
    Ok(Composition {
        total,
        milligrams: split(total),
    })
}
