ghost use Rattle.std.specs.Prelude.{◌≡◌, slice_set};
ghost use Rattle.telegrams.specs.Requests.{heard};
ghost use Rattle.records.specs.Rows.{row_at};
ghost use Rattle.records.specs.Records.{rows};
ghost use Rattle.orders.specs.Orders.{ordered, ending, replied};
ghost use Rattle.orders.specs.Management.{taken, managed};

use super::order::{Order, Unanswered};
use records::entry::Entry;
use records::rows::Rows;
use telegrams::request::Reply;
use values::address::Address;
use values::nibble::Nibble;

/// The module took the order: PI is what a parameter order wrote.
fn note(target: &mut Rows, order: Order)
    ensures { rows target.new ≡ slice_set (rows target.old) (ordered order).to (taken (ordered order).asking (row_at (ordered order).to (rows target.old))) }
{
    if let Order::Parameter(to, pi) = order {
        let at = Address::from(to);
        let entry = target.entry(at);
        target.set_entry(at, Entry { pi, ..entry });
    }
}

/// What a reply to an order makes of the row, and how the order ends.
pub fn hear_order(target: &mut Rows, order: Order, reply: Reply) -> Result<Nibble, Unanswered>
    ensures row { rows target.new ≡ slice_set (rows target.old) (ordered order).to (managed (ordered order).asking (row_at (ordered order).to (rows target.old)) (heard reply)) }
    ensures ends { ending result ≡ replied (heard reply) }
{
    match reply {
        Reply::Answer(nibble) => {
            note(target, order);
            Ok(nibble)
        }
        Reply::Silence => Err(Unanswered::Silent),
        Reply::Disturbed => Err(Unanswered::Disturbed),
    }
}
