ghost use Rattle.std.specs.Prelude.{◌≡◌, slice_set};
ghost use Rattle.telegrams.specs.Requests.{heard};
ghost use Rattle.records.specs.Rows.{row_at};
ghost use Rattle.records.specs.Records.{rows};
ghost use Rattle.phases.specs.Exchange.{lost};
ghost use Rattle.search.specs.Searches.{sought, called};

use phases::detection::detect_at;
use records::entry::{Codes, Entry};
use records::rows::Rows;
use telegrams::request::Reply;
use values::address::Address;
use values::nibble::Nibble;

/// An address that did not give its codes leaves LDS.
fn lose(target: &mut Rows, address: Address)
    ensures { rows target.new ≡ slice_set (rows target.old) address.value (lost (row_at address.value (rows target.old))) }
{
    let entry = target.entry(address);
    let cdi = Codes::none();
    target.forget(address, Entry { cdi, ..entry });
}

/// What a reply to Read_IO makes of the row in the search: it keeps nothing of an I/O code that came.
pub fn hear_sought(target: &mut Rows, address: Address, reply: Reply)
    ensures { rows target.new ≡ slice_set (rows target.old) address.value (sought (row_at address.value (rows target.old)) (heard reply)) }
{
    match reply {
        Reply::Answer(_) => {}
        Reply::Silence | Reply::Disturbed => lose(target, address),
    }
}

/// What a reply to Read_ID makes of the row in the search, where the I/O code came before.
pub fn hear_called(target: &mut Rows, address: Address, io: Nibble, reply: Reply)
    ensures { rows target.new ≡ slice_set (rows target.old) address.value (called io.value (row_at address.value (rows target.old)) (heard reply)) }
{
    match reply {
        Reply::Answer(id) => detect_at(target, address, Codes { io, id }),
        Reply::Silence | Reply::Disturbed => lose(target, address),
    }
}
