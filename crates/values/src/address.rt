ghost use Rattle.std.specs.Prelude.{◌≡◌};
ghost use Rattle.values.specs.Refusals.{outcome};
ghost use Rattle.values.specs.Ranges.{address_from};

use super::module_address::ModuleAddress;
use super::refusal::Refusal;
use super::up_to::UpTo;

/// An address 0 to 31.
pub type Address = UpTo<31>;

impl TryFrom<u32> for Address {
    type Error = Refusal;

    ghost try_from_gives = { λ n r. outcome (λ x. x.value) r ≡ address_from n };

    fn try_from(n: u32) -> Result<Address, Refusal> {
        Address::checked(n).ok_or(Refusal::BadAddress)
    }
}

impl From<ModuleAddress> for Address {
    ghost from_gives = { λ a r. r.value ≡ a.value };

    fn from(address: ModuleAddress) -> Address {
        Address::of(address.get())
    }
}
