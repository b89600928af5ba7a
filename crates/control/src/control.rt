ghost use Rattle.std.specs.Prelude.{◌≡◌};
ghost use Rattle.values.specs.Refusals.{gives};
ghost use Rattle.telegrams.specs.Requests.{with_nibble, write_parameter};
ghost use Rattle.orders.specs.Orders.{ordered, reset_ordered};
ghost use Rattle.control.specs.Cycles.{control_of, new_control};
ghost use Rattle.control.specs.Phases.{first_letter};
ghost use Rattle.control.specs.Placing.{PlacedBy};
ghost use Rattle.control.specs.Listings.{Listed};

use orders::order::Order;
use orders::pair::Queues;
use records::record::{Mode, Record};
use search::step::Step;
use values::address::Address;
use values::refusal::Refusal;

#[derive(Clone, Copy, PartialEq, Eq)]
pub enum Phase {
    Offline,
    Detection,
    Activation,
    Normal,
}

impl Phase {
    /// The first letter of its name.
    pub fn letter(self) -> char
        ensures { result ≡ first_letter self }
    {
        match self {
            Phase::Offline => 'O',
            Phase::Detection => 'D',
            Phase::Activation => 'A',
            Phase::Normal => 'N',
        }
    }
}

/// The lists of addresses, bit a for address a, and the flags.
#[derive(Clone, Copy, PartialEq, Eq)]
pub struct Listing {
    pub lds: u32,
    pub las: u32,
    pub lps: u32,
    pub config_ok: bool,
    /// LDS.0: a module is detected at address 0.
    pub address_zero: bool,
    pub configuration_active: bool,
    pub normal_operation_active: bool,
    /// APF.
    pub power_fail: bool,
    /// The offline phase is requested.
    pub offline: bool,
}

#[derive(Drop)]
pub struct ExecutionControl {
    /// The plain record, which an opened projection borrows.
    pub table: Record,
    pub(crate) offline: bool,
    pub(crate) power_fail: bool,
    pub(crate) phase: Phase,
    pub(crate) step: Step,
}

impl ExecutionControl {
    pub fn new() -> ExecutionControl
        ensures { control_of result ≡ new_control }
    {
        ExecutionControl {
            table: Record::new(),
            offline: false,
            power_fail: false,
            phase: Phase::Offline,
            step: Step::Seek(Address::low(0)),
        }
    }

    /// Requests the offline phase, or ends the request.
    pub fn set_offline(&mut self, offline: bool)
        ensures { self.new ≡ record self.old { offline = offline } }
    {
        self.offline = offline;
    }

    fn place(&self, queues: &mut Queues, order: Order) -> Result<(), Refusal>
        ensures { PlacedBy self.now (gives (ordered order)) queues.old result queues.new }
    {
        if self.phase != Phase::Normal {
            return Err(Refusal::WrongPhase);
        }
        if !self.table.rows.is_active(order.address()) {
            return Err(Refusal::NotActive);
        }
        queues.place(order)
    }

    /// Places an order to write a module's parameter.
    pub fn place_parameter(
        &self,
        queues: &mut Queues,
        address: u32,
        value: u32,
    ) -> Result<(), Refusal>
        ensures { PlacedBy self.now (with_nibble write_parameter address value)
            queues.old result queues.new }
    {
        self.place(queues, Order::parameter(address, value)?)
    }

    /// Places an order to reset a module.
    pub fn place_reset(&self, queues: &mut Queues, address: u32) -> Result<(), Refusal>
        ensures { PlacedBy self.now (reset_ordered address) queues.old result queues.new }
    {
        self.place(queues, Order::reset(address)?)
    }

    /// LDS, LAS, LPS and the flags.
    pub fn read_lists(&self) -> Listing
        ensures { Listed self.now result }
    {
        let (lists, lps) = self.table.rows.lists();
        Listing {
            lds: lists.lds(),
            las: lists.las(),
            lps,
            config_ok: self.table.rows.config_ok(),
            address_zero: self.table.rows.is_detected(Address::low(0)),
            configuration_active: self.table.mode() == Mode::Configuration,
            normal_operation_active: self.phase == Phase::Normal,
            power_fail: self.power_fail,
            offline: self.offline,
        }
    }
}
