ghost use Rattle.std.specs.Prelude.{◌≡◌, ◌%◌, bit_and};
ghost use Rattle.lists.specs.Members.{joined, removed};

use super::member::{with, without};
use values::address::Address;
use values::module_address::ModuleAddress;

/// LDS and LAS: the activated addresses are among the detected ones, and 0 is never activated.
// Each a word, as the controller is given it, and written whole at each change.
#[derive(Clone, Copy)]
pub struct Lists {
    lds: u32,
    las: u32,
    ghost ok: { (bit_and las lds ≡ las) × (las % 2 ≡ 0) },
}

impl Lists {
    pub fn new() -> Lists
        ensures lds { result.lds ≡ 0 }
        ensures las { result.las ≡ 0 }
    {
        Lists { lds: 0, las: 0 }
    }

    /// The detected addresses.
    pub fn lds(self) -> u32
        ensures { result ≡ self.lds }
    {
        self.lds
    }

    /// The activated addresses.
    pub fn las(self) -> u32
        ensures { result ≡ self.las }
    {
        self.las
    }

    /// Puts an address into LDS.
    pub fn detect(&mut self, address: Address)
        ensures lds { self.new.lds ≡ joined self.old.lds address.value }
        ensures las { self.new.las ≡ self.old.las }
    {
        *self = Lists {
            lds: with(self.lds, address),
            las: self.las,
        };
    }

    /// Puts an address into LDS and LAS.
    pub fn activate(&mut self, address: ModuleAddress)
        ensures lds { self.new.lds ≡ joined self.old.lds address.value }
        ensures las { self.new.las ≡ joined self.old.las address.value }
    {
        let to = Address::from(address);
        *self = Lists {
            lds: with(self.lds, to),
            las: with(self.las, to),
        };
    }

    /// Takes an address out of LDS and LAS.
    pub fn forget(&mut self, address: Address)
        ensures lds { self.new.lds ≡ removed self.old.lds address.value }
        ensures las { self.new.las ≡ removed self.old.las address.value }
    {
        let gone = address;
        *self = Lists {
            lds: without(self.lds, gone),
            las: without(self.las, gone),
        };
    }
}
