ghost use Rattle.std.specs.Prelude.{◌≡◌, map};
ghost use Rattle.records.specs.Records.{rows};
ghost use Rattle.records.specs.Edits.{change_of, projecting, unprojecting, taking_over, all_edited, accepted_edits};
ghost use Rattle.records.specs.Editing.{EditedBy};

use super::entry::Codes;
use super::record::{Mode, Record};
use values::address::Address;
use values::module_address::ModuleAddress;
use values::nibble::Nibble;
use values::refusal::Refusal;

/// An edit of the projected configuration, with any numbers.
#[derive(Clone, Copy, PartialEq, Eq)]
pub enum Edit {
    Project {
        address: u32,
        io: u32,
        id: u32,
        parameter: u32,
    },
    Unproject(u32),
    TakeOver,
}

impl Record {
    /// Projects an address: stores its codes and its permanent parameter, and lists it.
    pub fn project_module(
        &mut self,
        address: u32,
        io: u32,
        id: u32,
        parameter: u32,
    ) -> Result<(), Refusal>
        ensures { EditedBy (projecting address io id parameter) self.old result self.new }
    {
        let to = ModuleAddress::try_from(address)?;
        let io = Nibble::try_from(io)?;
        let id = Nibble::try_from(id)?;
        let parameter = Nibble::try_from(parameter)?;
        if self.mode == Mode::Protected {
            return Err(Refusal::WrongPhase);
        }
        self.rows
            .plan(Address::from(to), true, Codes { io, id }, parameter);
        Ok(())
    }

    /// Takes an address out of the projection.
    pub fn unproject_module(&mut self, address: u32) -> Result<(), Refusal>
        ensures { EditedBy (unprojecting address) self.old result self.new }
    {
        let to = ModuleAddress::try_from(address)?;
        if self.mode == Mode::Protected {
            return Err(Refusal::WrongPhase);
        }
        let full = Nibble::low(15);
        self.rows
            .plan(Address::from(to), false, Codes::none(), full);
        Ok(())
    }

    /// Projects what is detected at the addresses 1 to 31, with the actual parameters.
    pub fn take_over(&mut self) -> Result<(), Refusal>
        ensures { EditedBy taking_over self.old result self.new }
    {
        if self.mode == Mode::Protected {
            return Err(Refusal::WrongPhase);
        }
        self.rows.take_over();
        Ok(())
    }

    /// Makes an edit.
    pub fn edit(&mut self, edit: Edit) -> Result<(), Refusal>
        ensures { EditedBy (change_of edit) self.old result self.new }
    {
        match edit {
            Edit::Project {
                address,
                io,
                id,
                parameter,
            } => self.project_module(address, io, id, parameter),
            Edit::Unproject(address) => self.unproject_module(address),
            Edit::TakeOver => self.take_over(),
        }
    }

    /// Makes edits; how many were accepted.
    pub fn edit_all(&mut self, edits: &[Edit]) -> usize
        ensures mode { self.new.mode ≡ self.old.mode }
        ensures accepted { result ≡ accepted_edits self.old.mode (map change_of edits.now) }
        ensures rows { rows self.new.rows ≡ all_edited self.old.mode (map change_of edits.now) (rows self.old.rows) }
    {
        let mut accepted = 0;
        for edit in edits {
            accepted += usize::from(self.edit(*edit).is_ok());
        }
        accepted
    }
}
