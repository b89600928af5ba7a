ghost use Rattle.std.specs.Prelude.{◌≡◌};
ghost use Rattle.values.specs.Refusals.{outcome};
ghost use Rattle.telegrams.specs.Requests.{sent, with_nibble, plain, data_exchange, write_parameter, read_io, read_id, resetting};

use values::address::Address;
use values::module_address::ModuleAddress;
use values::nibble::Nibble;
use values::refusal::Refusal;

/// What a master sends to one address. No value of this type holds a number out of range.
#[derive(Clone, Copy, PartialEq, Eq)]
pub enum Request {
    DataExchange(ModuleAddress, Nibble),
    WriteParameter(ModuleAddress, Nibble),
    ReadIo(Address),
    ReadId(Address),
    Reset(Address),
}

/// What a master hears: a nibble, nothing, or something that is no telegram.
// No `Result`: the rules go on after each of the three, and never hand one on as `?` would; a match names each as the standard does.
#[derive(Clone, Copy, PartialEq, Eq)]
pub enum Reply {
    Answer(Nibble),
    Silence,
    Disturbed,
}

// A constructor for each request: one for all would be given the variant as a function, which is no plainer than these lines.
impl Request {
    pub fn data_exchange(address: u32, nibble: u32) -> Result<Request, Refusal>
        ensures { outcome sent result ≡ with_nibble data_exchange address nibble }
    {
        let to = ModuleAddress::try_from(address)?;
        Ok(Request::DataExchange(to, Nibble::try_from(nibble)?))
    }

    pub fn write_parameter(address: u32, nibble: u32) -> Result<Request, Refusal>
        ensures { outcome sent result ≡ with_nibble write_parameter address nibble }
    {
        let to = ModuleAddress::try_from(address)?;
        Ok(Request::WriteParameter(to, Nibble::try_from(nibble)?))
    }

    pub fn read_io(address: u32) -> Result<Request, Refusal>
        ensures { outcome sent result ≡ plain read_io address }
    {
        Ok(Request::ReadIo(Address::try_from(address)?))
    }

    pub fn read_id(address: u32) -> Result<Request, Refusal>
        ensures { outcome sent result ≡ plain read_id address }
    {
        Ok(Request::ReadId(Address::try_from(address)?))
    }

    pub fn reset(address: u32) -> Result<Request, Refusal>
        ensures { outcome sent result ≡ plain resetting address }
    {
        Ok(Request::Reset(Address::try_from(address)?))
    }

    /// The address that the request goes to.
    pub fn address(self) -> Address
        ensures { result.value ≡ (sent self).to }
    {
        match self {
            Request::DataExchange(a, _) | Request::WriteParameter(a, _) => Address::from(a),
            Request::ReadIo(a) | Request::ReadId(a) | Request::Reset(a) => a,
        }
    }
}
