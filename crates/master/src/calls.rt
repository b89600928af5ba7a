use super::master::MasterWith;
use control::control::Listing;
use orders::order::Answer;
use orders::pair::Queues;
use records::edit::Edit;
use records::record::Mode;
use values::nibble::Nibble;
use values::refusal::Refusal;

impl MasterWith<Queues<'_>> {
    ghost use Rattle.std.specs.Prelude.{◌≡◌};
    ghost use Rattle.queues.specs.Fifo.{UnchangedIfRefused, OnlyPut, OnlyTaken};
    ghost use Rattle.records.specs.Edits.{change_of, projecting, unprojecting, taking_over};
    ghost use Rattle.promise.specs.Successions.{parameter, reset, placing, collecting, reading, of_inputs, of_lists, writing, of_outputs, setting, of_mode, of_offline, editing};
    ghost use Rattle.promise.specs.Outcomes.{done, lists};
    ghost use Rattle.master.specs.Masters.{Calls, done_or, told_or, inputs_or, shown};

    /// Places an order to write a module's parameter.
    pub fn place_parameter(&mut self, address: u32, value: u32) -> Result<(), Refusal>
        ensures called { Calls (placing (parameter address value)) self.old (done_or result) self.new }
        ensures refused { UnchangedIfRefused result self.old self.new }
        ensures orders { OnlyPut self.old.queues.orders self.new.queues.orders }
        ensures answers { self.new.queues.answers ≡ self.old.queues.answers }
    {
        self.control
            .place_parameter(&mut self.queues, address, value)
    }

    /// Places an order to reset a module.
    pub fn place_reset(&mut self, address: u32) -> Result<(), Refusal>
        ensures called { Calls (placing (reset address)) self.old (done_or result) self.new }
        ensures refused { UnchangedIfRefused result self.old self.new }
        ensures orders { OnlyPut self.old.queues.orders self.new.queues.orders }
        ensures answers { self.new.queues.answers ≡ self.old.queues.answers }
    {
        self.control.place_reset(&mut self.queues, address)
    }

    /// Takes the oldest answer.
    pub fn collect(&mut self) -> Result<Answer, Refusal>
        ensures called { Calls collecting self.old (told_or result) self.new }
        ensures refused { UnchangedIfRefused result self.old self.new }
        ensures answers { OnlyTaken self.old.queues.answers self.new.queues.answers }
        ensures orders { self.new.queues.orders ≡ self.old.queues.orders }
    {
        self.queues.collect()
    }

    /// Stores the outputs that the controller gives for an address, inverted, as ODI.
    pub fn write_outputs(&mut self, address: u32, outputs: u32) -> Result<(), Refusal>
        ensures called { Calls (writing (of_outputs address outputs)) self.old (done_or result) self.new }
        ensures queues { self.new.queues ≡ self.old.queues }
    {
        self.control.table.write_outputs(address, outputs)
    }

    /// IDI of an address.
    pub fn read_inputs(&self, address: u32) -> Result<Nibble, Refusal>
        ensures called { Calls (reading (of_inputs address)) self.now (inputs_or result) self.now }
    {
        self.control.table.read_inputs(address)
    }

    /// LDS, LAS, LPS and the flags.
    pub fn read_lists(&self) -> Listing
        ensures called { Calls (reading of_lists) self.now (lists (shown result)) self.now }
    {
        self.control.read_lists()
    }

    /// Sets the mode. Protected mode is refused while a module is detected at address 0.
    pub fn set_mode(&mut self, mode: Mode) -> Result<(), Refusal>
        ensures called { Calls (setting (of_mode mode)) self.old (done_or result) self.new }
        ensures queues { self.new.queues ≡ self.old.queues }
    {
        self.control.table.set_mode(mode)
    }

    /// Requests the offline phase, or ends the request.
    pub fn set_offline(&mut self, offline: bool)
        ensures called { Calls (setting (of_offline offline)) self.old done self.new }
        ensures queues { self.new.queues ≡ self.old.queues }
    {
        self.control.set_offline(offline);
    }

    /// Projects an address: stores its codes and its permanent parameter, and lists it.
    pub fn project_module(
        &mut self,
        address: u32,
        io: u32,
        id: u32,
        parameter: u32,
    ) -> Result<(), Refusal>
        ensures called { Calls (editing (projecting address io id parameter)) self.old (done_or result) self.new }
        ensures queues { self.new.queues ≡ self.old.queues }
    {
        self.control
            .table
            .project_module(address, io, id, parameter)
    }

    /// Takes an address out of the projection.
    pub fn unproject_module(&mut self, address: u32) -> Result<(), Refusal>
        ensures called { Calls (editing (unprojecting address)) self.old (done_or result) self.new }
        ensures queues { self.new.queues ≡ self.old.queues }
    {
        self.control.table.unproject_module(address)
    }

    /// Projects what is detected at the addresses 1 to 31, with the actual parameters.
    pub fn take_over(&mut self) -> Result<(), Refusal>
        ensures called { Calls (editing taking_over) self.old (done_or result) self.new }
        ensures queues { self.new.queues ≡ self.old.queues }
    {
        self.control.table.take_over()
    }

    /// Makes an edit.
    pub fn edit(&mut self, edit: Edit) -> Result<(), Refusal>
        ensures called { Calls (editing (change_of edit)) self.old (done_or result) self.new }
        ensures queues { self.new.queues ≡ self.old.queues }
    {
        self.control.table.edit(edit)
    }
}
