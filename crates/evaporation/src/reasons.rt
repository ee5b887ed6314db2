// Why a sheet is refused, for a program in another language.
ghost use Rattle.std.specs.Prelude.{◌≡◌};
ghost use Rattle.findings.specs.Table.{finding_of};
ghost use Rattle.findings.specs.Meaning.{Explains};

use findings::Finding;

// The first thing that is wrong on a sheet; all zeros where it is accepted.
#[unsafe(no_mangle)]
pub extern "C" fn evp_explain(sheet: &[u8]) -> Finding
    ensures { (result ≡ finding_of sheet.now) × Explains sheet.now result }
{
    explanation::explain(sheet)
}
