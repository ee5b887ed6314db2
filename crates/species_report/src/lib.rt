// From the bytes of a sheet to the bytes that are printed for its species.
#![tactic(auto)]

ghost use Rattle.std.specs.Prelude.{◌≡◌, ◌≤◌, ◌<◌, length, Ok, IfOk};
ghost use Rattle.std.specs.Result.{MatchResult};
ghost use Rattle.speciation.specs.Split.{species_masses};
ghost use Rattle.text.specs.Whole.{length_of, text_or_refusal};
ghost use Rattle.species_report.specs.declared.composition.Composition.{Composition};
ghost use Rattle.species_report.specs.Made.{LinesThere, lines_text};
ghost use Rattle.species_report.specs.SpeciesText.{lines_of, lines_most, SpeciesTextCall};

use crate::composition::{Composition, species_of};
use crate::lines::SpeciesLines;
use fields::version_of;
use refusals::Refusal;
pub use text::whole::length_of;
use text::whole::write_whole;

pub mod composition;
mod lines;

// What the text of a sheet is made from whose species were asked for.
fn lines_of(s: &[u8], found: Result<Composition, Refusal>) -> Result<SpeciesLines, Refusal>
    requires { (c : Composition) → found ≡ Ok c → (8 ≤ length s.now) × (c.milligrams ≡ species_masses c.total) }
    ensures there { IfOk result LinesThere }
    ensures text { text_or_refusal lines_text result ≡ lines_of found s.now }
    ensures most { length (lines_of found s.now) ≤ lines_most }
{
    let composition = found?;
    Ok(SpeciesLines {
        version: version_of(s),
        composition,
    })
}

// The text that is printed for the species of a sheet, at the front of a buffer that it fits; the words are left as the report call leaves
// them. The length of the text is returned, as an error where the buffer has less: it is then left as it is.
// The sheet and the words are two slices, as for `species_of`.
pub fn species_text(s: &[u8], words: &mut [u64], out: &mut [u8]) -> Result<usize, usize>
    ensures call { SpeciesTextCall s.now words.old words.new out.old out.new (length_of result) }
    ensures answer { MatchResult result (λ n. n ≤ length out.old) (λ n. length out.old < n) }
{
    let found = species_of(s, words);
    write_whole(&lines_of(s, found), out)
}
