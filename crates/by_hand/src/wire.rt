use telegrams::request::Request;
use telegrams::word::{decode_request, encode_reply};
use values::nibble::Nibble;

/// The address of the module on the wire.
const ADDRESS: u8 = 3;

/// What a module answers to Reset.
const RESET_DONE: u32 = 6;

/// A module's firmware.
#[derive(Drop)]
struct Module {
    io_code: Nibble,
    id_code: Nibble,
    inputs: Nibble,
    outputs: Nibble,
    parameter: Nibble,
    /// It has taken a parameter since power-up.
    enabled: bool,
}

impl Module {
    /// As it is after power-up.
    fn new() -> Module {
        Module {
            io_code: Nibble::low(7),
            id_code: Nibble::low(0),
            inputs: Nibble::low(9),
            outputs: Nibble::low(15),
            parameter: Nibble::low(15),
            enabled: false,
        }
    }

    /// Obeys a request that is addressed to it, and answers unless it has to stay silent.
    fn obey(&mut self, request: Request) -> Option<Nibble> {
        match request {
            Request::ReadIo(_) => Some(self.io_code),
            Request::ReadId(_) => Some(self.id_code),
            Request::WriteParameter(_, parameter) => {
                self.parameter = parameter;
                self.enabled = true;
                Some(parameter)
            }
            Request::DataExchange(_, outputs) => {
                if !self.enabled {
                    return None;
                }
                self.outputs = outputs;
                Some(self.inputs)
            }
            Request::Reset(_) => {
                *self = Module::new();
                Some(Nibble::low(RESET_DONE))
            }
        }
    }
}

/// A simulated wire with one module. It knows nothing of the master: words of 14 bits go in, and words of 7 bits come back.
#[derive(Drop)]
pub struct Wire {
    module: Module,
}

impl Wire {
    pub fn new() -> Wire {
        Wire {
            module: Module::new(),
        }
    }

    /// Carries the word of a request, and the word of the reply back, where there is one.
    pub fn carry(&mut self, word: u32) -> Option<u32> {
        let request = decode_request(word).ok()?;
        if request.address().get() != ADDRESS {
            return None;
        }
        let answer = self.module.obey(request)?;
        Some(encode_reply(answer))
    }
}
