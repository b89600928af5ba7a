use control::control::ExecutionControl;
use orders::order::{Answer, Order};
use orders::pair::Queues;
use records::record::Record;

/// A master, with what holds its queues.
#[derive(Drop)]
pub struct MasterWith<Q> {
    pub(crate) control: ExecutionControl,
    pub(crate) queues: Q,
}

/// A master whose queues lie in two slices of the caller's.
pub type Master<'a> = MasterWith<Queues<'a>>;

impl<'a> MasterWith<Queues<'a>> {
    ghost use Rattle.std.specs.Prelude.{◌≡◌, length};
    ghost use Rattle.control.specs.Cycles.{new_master};
    ghost use Rattle.master.specs.Masters.{state_of};

    /// A new master. As many orders may wait as the first slice has places, and as many answers be uncollected as the second has.
    pub fn new(order_slots: &'a mut [Order], answer_slots: &'a mut [Answer]) -> Master<'a>
        ensures new { state_of result ≡ new_master (length order_slots.old) (length answer_slots.old) }
        ensures order_slots { result.queues.orders.slots.now ≡ order_slots.old }
        ensures answer_slots { result.queues.answers.slots.now ≡ answer_slots.old }
        ensures order_lender { result.queues.orders.slots.ghost_name ≡ order_slots.entry.ghost_name }
        ensures answer_lender { result.queues.answers.slots.ghost_name ≡ answer_slots.entry.ghost_name }
    {
        MasterWith {
            control: ExecutionControl::new(),
            queues: Queues::over(order_slots, answer_slots),
        }
    }
}

impl MasterWith<Queues<'_>> {
    ghost use Rattle.std.specs.Prelude.{◌≡◌, length};
    ghost use Rattle.master.specs.Masters.{state_of};

    /// How many orders wait.
    pub fn waiting(&self) -> usize
        ensures { result ≡ length (state_of self.now).orders }
    {
        self.queues.waiting()
    }

    /// How many answers are uncollected.
    pub fn uncollected(&self) -> usize
        ensures { result ≡ length (state_of self.now).answers }
    {
        self.queues.uncollected()
    }
}

impl<Q> MasterWith<Q> {
    ghost use Rattle.std.specs.Prelude.{◌≡◌};

    /// The plain record: mode, lists and what is held for each address.
    pub fn record(&self) -> &Record
        ensures { result.now ≡ self.now.control.table }
    {
        &self.control.table
    }
}
