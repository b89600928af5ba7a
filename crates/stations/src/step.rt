ghost use Rattle.std.specs.Prelude.{◌≡◌, ◌-◌, ◌<◌, true};
ghost use Rattle.telegrams.specs.Requests.{asked, heard};
ghost use Rattle.stations.specs.Stations.{state_of, place_of, port_bits, obeyed, answer, after, reply};

use super::station::{Disturbance, Module, Station};
use telegrams::request::{Reply, Request};
use values::nibble::Nibble;

impl Module {
    /// What the ports show while `outputs` is driven: that at output ports, the field at the others.
    fn ports(&self, outputs: Nibble) -> Nibble
        ensures { result.value ≡ port_bits outputs.value (state_of self.now) }
    {
        let direction = u32::from(self.direction);
        Nibble::low((u32::from(outputs) & direction) | (u32::from(self.inputs) & (15 - direction)))
    }

    /// An undisturbed module with power obeys a request.
    fn obey(&mut self, request: Request) -> Reply
        ensures after { state_of self.new ≡ obeyed (state_of self.old) (asked request) }
        ensures reply { heard result ≡ answer (state_of self.old) (asked request) }
    {
        match request {
            Request::DataExchange(_, outputs) => {
                if !self.enabled || self.io_code.get() == 15 {
                    return Reply::Silence;
                }
                self.outputs = outputs;
                Reply::Answer(self.ports(outputs))
            }
            Request::WriteParameter(_, parameter) => {
                self.parameter = parameter;
                self.enabled = true;
                Reply::Answer(parameter)
            }
            Request::ReadIo(_) => Reply::Answer(self.io_code),
            Request::ReadId(_) => Reply::Answer(self.id_code),
            Request::Reset(_) => {
                self.outputs = Nibble::low(15);
                self.parameter = Nibble::low(15);
                self.enabled = false;
                Reply::Answer(Nibble::low(6))
            }
        }
    }
}

impl Station {
    /// What a powered station does with a request that is addressed to it.
    pub fn hear(&mut self, request: Request) -> Reply
        ensures after { place_of self.new ≡ after true (place_of self.old) (asked request) }
        ensures reply { heard result ≡ reply true (place_of self.old) (asked request) }
    {
        let Some(module) = &mut self.module else {
            return Reply::Silence;
        };
        match u32::from(module.disturbance).checked_sub(1) {
            Some(left) => {
                module.disturbance = Disturbance::low(left);
                Reply::Disturbed
            }
            None => module.obey(request),
        }
    }
}
