// The species of a total at the front of a buffer.
ghost use Rattle.std.specs.Prelude.{◌≡◌, ◌≤◌, length};
ghost use Rattle.refusals.specs.Check.{Pass};
ghost use Rattle.inventory.specs.ReportCall.{written};
ghost use Rattle.speciation.specs.Split.{species_masses};

use speciation::split;

// The masses at the front of a buffer that has room for them.
pub fn write_masses(total: u64, milligrams: &mut [u64])
    requires { 29 ≤ length milligrams.old }
    ensures { milligrams.new ≡ written Pass (species_masses total) milligrams.old }
{
    milligrams[..29].copy_from_slice(&split(total));
}
