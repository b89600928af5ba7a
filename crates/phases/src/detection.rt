ghost use Rattle.std.specs.Prelude.{◌≡◌, slice_set};
ghost use Rattle.records.specs.Rows.{row_at};
ghost use Rattle.records.specs.Records.{pair_of, rows};
ghost use Rattle.phases.specs.Detection.{found};

use records::entry::{Codes, Entry};
use records::rows::Rows;
use values::address::Address;

/// Puts an address into LDS with the codes that it gave.
pub fn detect_at(target: &mut Rows, address: Address, cdi: Codes)
    ensures { rows target.new ≡ slice_set (rows target.old) address.value (found (pair_of cdi) (row_at address.value (rows target.old))) }
{
    let entry = target.entry(address);
    target.detect(address, Entry { cdi, ..entry });
}
