ghost use Rattle.std.specs.Prelude.{◌≡◌, ◌+◌, ◌%◌, ◌<◌};

use super::address::Address;
use super::refusal::Refusal;

/// An address 1 to 31: one at which data is exchanged.
// No `UpTo`: with a lowest number as a second parameter, some pairs would have no number between them, and `nth` would owe that there is one.
#[derive(Clone, Copy, PartialEq, Eq)]
pub struct ModuleAddress {
    value: u8,
    ghost ok: { (0 < value) × (value < 32) },
}

impl ModuleAddress {
    /// The module addresses counted from 0, and round again after the 31st.
    pub fn nth(n: u32) -> ModuleAddress
        ensures { result.value ≡ n % 31 + 1 }
    {
        ModuleAddress {
            value: (n % 31 + 1) as u8,
        }
    }

    pub fn get(self) -> u8
        ensures { result ≡ self.value }
    {
        self.value
    }
}

impl TryFrom<u32> for ModuleAddress {
    ghost use Rattle.values.specs.Refusals.{outcome};
    ghost use Rattle.values.specs.Ranges.{module_address_from};

    type Error = Refusal;

    ghost try_from_gives = { λ n r. outcome (λ x. x.value) r ≡ module_address_from n };

    fn try_from(n: u32) -> Result<ModuleAddress, Refusal> {
        if n == 0 || n > 31 {
            return Err(Refusal::BadAddress);
        }
        Ok(ModuleAddress { value: n as u8 })
    }
}

impl TryFrom<Address> for ModuleAddress {
    ghost use Rattle.values.specs.Refusals.{outcome};
    ghost use Rattle.values.specs.Ranges.{module_address_from};

    type Error = Refusal;

    ghost try_from_gives = { λ a r. outcome (λ x. x.value) r ≡ module_address_from a.value };

    fn try_from(address: Address) -> Result<ModuleAddress, Refusal> {
        ModuleAddress::try_from(u32::from(address))
    }
}
