ghost use Rattle.std.specs.Prelude.{◌≡◌};
ghost use Rattle.lists.specs.Members.{has, joined, removed, placed};

use values::address::Address;

/// Whether an address is in a list.
pub fn contains(list: u32, address: Address) -> bool
    ensures { result ≡ has list address.value }
{
    (list >> address.get()) % 2 == 1
}

/// The list with an address.
pub fn with(list: u32, address: Address) -> u32
    ensures { result ≡ joined list address.value }
{
    list | 1 << address.get()
}

/// The list without an address.
pub fn without(list: u32, address: Address) -> u32
    ensures { result ≡ removed list address.value }
{
    list & !(1 << address.get())
}

/// The list with or without an address.
pub fn set_member(list: u32, address: Address, member: bool) -> u32
    ensures { result ≡ placed member list address.value }
{
    if member {
        with(list, address)
    } else {
        without(list, address)
    }
}
