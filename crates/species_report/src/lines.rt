// The lines of the program `species`.
ghost use Rattle.std.specs.Prelude.{◌≡◌, ◌++◌};
ghost use Rattle.text.specs.Ascii.{bytes};
ghost use Rattle.text.specs.Decimal.{digits};
ghost use Rattle.text.specs.Put.{Put};
ghost use Rattle.species_report.specs.Made.{LinesThere, lines_text};

use crate::composition::Composition;
use text::whole::Lines;
use text::writer::Writer;

// The names of the species in printed order.
static NAMES: [&str; 29] = [
    // alkanes
    "ethane",
    "propane",
    "i-butane",
    "n-butane",
    "i-pentane",
    "n-pentane",
    "2-methylpentane",
    "3-methylpentane",
    "n-hexane",
    "n-heptane",
    // alkenes
    "ethene",
    "propene",
    "1-butene",
    "trans-2-butene",
    "isobutene",
    "cis-2-butene",
    "1,3-butadiene",
    "trans-2-pentene",
    "cis-2-pentene",
    "isoprene",
    // alkines
    "propyne",
    "acetylene",
    // aromatics
    "benzene",
    "toluene",
    "ethylbenzene",
    "m-xylene",
    "o-xylene",
    "1,2,4-trimethylbenzene",
    "1,3,5-trimethylbenzene",
];

// The line of a species: its name and its milligrams.
fn write_species(writer: &mut Writer<'_>, name: &[u8], mass: u64)
    ensures { Put writer.old (name.now ++ bytes " " ++ digits mass ++ bytes "\n") writer.new }
{
    writer.text(name);
    writer.text(b" ");
    writer.number(mass);
    writer.text(b"\n");
}

// What the lines of an accepted sheet are made from.
#[derive(Clone, Copy, Drop)]
pub struct SpeciesLines {
    pub version: u64,
    pub composition: Composition,
}

impl Lines for SpeciesLines {
    ghost are_there = { LinesThere };

    ghost text = { lines_text };

    fn write(&self, writer: &mut Writer<'_>) {
        let composition = &self.composition;
        writer.pair(b"EVP ", self.version, b" total ", composition.total);
        // By the place and not by `zip`, of which a proof must show first that name and mass are those of one place: it would be no plainer.
        for (i, &mass) in composition.milligrams.iter().enumerate() {
            write_species(writer, NAMES[i].as_bytes(), mass);
        }
    }
}
