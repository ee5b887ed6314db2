// The species of a total and those of a sheet, for a program in another language.
ghost use Rattle.std.specs.Prelude.{◌≡◌, length};
ghost use Rattle.inventory.specs.ReportCall.{written};
ghost use Rattle.speciation.specs.Split.{species_masses};
ghost use Rattle.boundary.specs.SpeciesCall.{species_check, SpeciesNumbers};
ghost use Rattle.boundary.specs.CompositionExport.{CompositionNumbers};

use boundary::{EvpCheck, EvpComposition};
use boundary_calls::species::write_masses;
use refusals::{Check, Rule, refuse};
use species_report::composition::species_of;

// The species of a total at the front of a buffer, or a refusal that leaves it as it is.
fn write_species(total: u64, milligrams: &mut [u64]) -> Check
    ensures answer { result ≡ species_check (length milligrams.old) }
    ensures words { milligrams.new ≡ written (species_check (length milligrams.old)) (species_masses total) milligrams.old }
{
    refuse(milligrams.len() < 29, Rule::Room, 0)?;
    write_masses(total, milligrams);
    Ok(())
}

// The species of a total, in milligrams.
#[unsafe(no_mangle)]
pub extern "C" fn evp_species(total: u64, milligrams: &mut [u64]) -> EvpCheck
    ensures { SpeciesNumbers total milligrams.old milligrams.new result }
{
    EvpCheck::from(write_species(total, milligrams))
}

// The species of a sheet's high total, with the refusals of its report, for which the words are lent.
#[unsafe(no_mangle)]
pub extern "C" fn evp_species_of(sheet: &[u8], words: &mut [u64]) -> EvpComposition
    ensures { CompositionNumbers sheet.now words.old words.new result }
{
    EvpComposition::from(species_of(sheet, words))
}
