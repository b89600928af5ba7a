ghost use Rattle.std.specs.Prelude.{◌≡◌};
ghost use Rattle.values.specs.Refusals.{outcome};
ghost use Rattle.telegrams.specs.Requests.{sent, with_nibble, write_parameter};
ghost use Rattle.orders.specs.Orders.{ordered, reset_ordered, unanswered, ending_number};

use telegrams::request::Request;
use values::address::Address;
use values::module_address::ModuleAddress;
use values::nibble::Nibble;
use values::refusal::Refusal;

/// What the controller orders for one module.
#[derive(Clone, Copy, PartialEq, Eq)]
pub enum Order {
    Parameter(ModuleAddress, Nibble),
    Reset(ModuleAddress),
}

impl Order {
    pub fn parameter(address: u32, value: u32) -> Result<Order, Refusal>
        ensures { outcome ordered result ≡ with_nibble write_parameter address value }
    {
        let to = ModuleAddress::try_from(address)?;
        Ok(Order::Parameter(to, Nibble::try_from(value)?))
    }

    pub fn reset(address: u32) -> Result<Order, Refusal>
        ensures { outcome ordered result ≡ reset_ordered address }
    {
        Ok(Order::Reset(ModuleAddress::try_from(address)?))
    }

    pub fn address(self) -> Address
        ensures { result.value ≡ (ordered self).to }
    {
        match self {
            Order::Parameter(to, _) | Order::Reset(to) => Address::from(to),
        }
    }

    /// The request that carries the order out.
    pub fn request(self) -> Request
        ensures { sent result ≡ ordered self }
    {
        match self {
            Order::Parameter(to, value) => Request::WriteParameter(to, value),
            Order::Reset(to) => Request::Reset(Address::from(to)),
        }
    }
}

/// Why no nibble came for an order.
#[derive(Clone, Copy, PartialEq, Eq)]
pub enum Unanswered {
    /// Its address was not active, so that nothing was sent.
    NotActive,
    Silent,
    Disturbed,
}

impl Unanswered {
    /// The number that the controller is given.
    pub fn number(self) -> u16
        ensures { result ≡ ending_number (unanswered self) }
    {
        match self {
            Unanswered::NotActive => 0x8382,
            Unanswered::Silent | Unanswered::Disturbed => 0x8383,
        }
    }
}

/// An order with what became of it: the nibble that the module answered, or why none came.
#[derive(Clone, Copy, PartialEq, Eq)]
pub struct Answer {
    pub order: Order,
    pub result: Result<Nibble, Unanswered>,
}
