ghost use Rattle.std.specs.Prelude.{◌≡◌};
ghost use Rattle.values.specs.Refusals.{outcome};
ghost use Rattle.records.specs.Rows.{new_rows, outputs_outcome, outputs_after, inputs_outcome};
ghost use Rattle.records.specs.Modes.{mode_outcome, mode_after};
ghost use Rattle.records.specs.Records.{rows};

use super::rows::Rows;
use values::address::Address;
use values::nibble::Nibble;
use values::refusal::Refusal;

#[derive(Clone, Copy, PartialEq, Eq)]
pub enum Mode {
    Configuration,
    Protected,
}

/// The master's one plain record.
#[derive(Drop)]
pub struct Record {
    pub(crate) mode: Mode,
    pub rows: Rows,
}

impl Record {
    pub fn new() -> Record
        ensures mode { result.mode ≡ Mode.Configuration }
        ensures rows { rows result.rows ≡ new_rows }
    {
        Record {
            mode: Mode::Configuration,
            rows: Rows::new(),
        }
    }

    pub fn mode(&self) -> Mode
        ensures { result ≡ self.now.mode }
    {
        self.mode
    }

    /// Sets the mode. Protected mode is refused while a module is detected at address 0.
    pub fn set_mode(&mut self, mode: Mode) -> Result<(), Refusal>
        ensures result { outcome (λ u. u) result ≡ mode_outcome mode (rows self.old.rows) }
        ensures mode { self.new.mode ≡ mode_after mode self.old.mode (rows self.old.rows) }
        ensures rows { rows self.new.rows ≡ rows self.old.rows }
    {
        if mode == Mode::Protected && self.rows.is_detected(Address::low(0)) {
            return Err(Refusal::AddressZeroDetected);
        }
        self.mode = mode;
        Ok(())
    }

    /// Stores the outputs that the controller gives, inverted, as ODI.
    pub fn write_outputs(&mut self, address: u32, outputs: u32) -> Result<(), Refusal>
        ensures mode { self.new.mode ≡ self.old.mode }
        ensures result { outcome (λ u. u) result ≡ outputs_outcome address outputs }
        ensures rows { rows self.new.rows ≡ outputs_after address outputs (rows self.old.rows) }
    {
        self.rows.write_outputs(address, outputs)
    }

    /// IDI of an address.
    pub fn read_inputs(&self, address: u32) -> Result<Nibble, Refusal>
        ensures { outcome (λ n. n.value) result ≡ inputs_outcome address (rows self.now.rows) }
    {
        self.rows.read_inputs(address)
    }
}
