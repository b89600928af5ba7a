ghost use Rattle.std.specs.Prelude.{◌≡◌, slice_set};
ghost use Rattle.telegrams.specs.Requests.{heard};
ghost use Rattle.records.specs.Rows.{row_at};
ghost use Rattle.records.specs.Records.{rows};
ghost use Rattle.phases.specs.Exchange.{dropped, missed, exchanged};

use records::entry::{Codes, Entry};
use records::rows::Rows;
use telegrams::request::Reply;
use values::address::Address;
use values::nibble::Nibble;

/// How many misses in succession an address keeps before it is dropped.
const KEPT_MISSES: u8 = 2;

/// Takes an address out of LDS and LAS, and sets what was detected there as in a new record.
pub(crate) fn forget_at(target: &mut Rows, address: Address)
    ensures { rows target.new ≡ slice_set (rows target.old) address.value (dropped (row_at address.value (rows target.old))) }
{
    let entry = target.entry(address);
    target.forget(
        address,
        Entry {
            cdi: Codes::none(),
            idi: Nibble::low(0),
            misses: 0,
            ..entry
        },
    );
}

/// One more miss: the third in succession drops the address.
fn miss(target: &mut Rows, address: Address)
    ensures { rows target.new ≡ slice_set (rows target.old) address.value (missed (row_at address.value (rows target.old))) }
{
    let entry = target.entry(address);
    if entry.misses < KEPT_MISSES {
        let misses = entry.misses + 1;
        target.set_entry(address, Entry { misses, ..entry });
    } else {
        forget_at(target, address);
    }
}

/// What a reply to data exchange makes of the row: IDI of a nibble, else one more miss.
pub fn hear_data(target: &mut Rows, address: Address, reply: Reply)
    ensures { rows target.new ≡ slice_set (rows target.old) address.value (exchanged (row_at address.value (rows target.old)) (heard reply)) }
{
    let entry = target.entry(address);
    match reply {
        Reply::Answer(idi) => target.set_entry(
            address,
            Entry {
                idi,
                misses: 0,
                ..entry
            },
        ),
        Reply::Silence | Reply::Disturbed => miss(target, address),
    }
}
