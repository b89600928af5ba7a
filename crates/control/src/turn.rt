use orders::order::Order;
use values::address::Address;
use values::module_address::ModuleAddress;
use values::nibble::Nibble;

/// Where a cycle stands: for which request a reply is due. A nibble beside an address is what is sent, or else the I/O code that came.
#[derive(Clone, Copy)]
pub(crate) enum Turn {
    /// Nothing more is asked.
    Over,
    DetectIo(Address),
    DetectId(Address, Nibble),
    Activate(ModuleAddress, Nibble),
    Exchange(ModuleAddress, Nibble),
    Manage(Order),
    Seek(Address),
    Name(Address, Nibble),
    Enter(ModuleAddress, Nibble),
}
