ghost use Rattle.std.specs.Prelude.{◌≡◌, slice_set};
ghost use Rattle.telegrams.specs.Requests.{heard};
ghost use Rattle.records.specs.Rows.{row_at};
ghost use Rattle.records.specs.Records.{rows};
ghost use Rattle.phases.specs.Activation.{admissible, with_pi, entered};

use records::entry::Entry;
use records::record::Mode;
use records::rows::Rows;
use telegrams::request::Reply;
use values::address::Address;
use values::module_address::ModuleAddress;
use values::nibble::Nibble;

/// Whether a module with the codes that were detected at an address may be activated.
pub fn is_admissible(mode: Mode, target: &Rows, address: Address) -> bool
    ensures { result ≡ admissible mode address.value (row_at address.value (rows target.now)) }
{
    let entry = target.entry(address);
    address.get() != 0
        && entry.cdi.io.get() != 15
        && (mode == Mode::Configuration || target.is_projected(address) && entry.cdi == entry.pcd)
}

/// What a reply to Write_Parameter makes of the row in entering: PI is what was sent, and on a nibble the address joins LAS.
pub fn hear_entered(target: &mut Rows, address: ModuleAddress, pi: Nibble, reply: Reply)
    ensures { rows target.new ≡ slice_set (rows target.old) address.value (with_pi pi.value (entered (row_at address.value (rows target.old)) (heard reply))) }
{
    let at = Address::from(address);
    let entry = Entry {
        pi,
        ..target.entry(at)
    };
    match reply {
        Reply::Answer(_) => {
            let idi = Nibble::low(0);
            target.activate(
                address,
                Entry {
                    idi,
                    misses: 0,
                    ..entry
                },
            );
        }
        Reply::Silence | Reply::Disturbed => target.set_entry(at, entry),
    }
}
