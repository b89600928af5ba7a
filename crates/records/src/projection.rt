ghost use Rattle.std.specs.Prelude.{◌≡◌, map};
ghost use Rattle.values.specs.Refusals.{outcome};
ghost use Rattle.records.specs.Records.{rows};
ghost use Rattle.records.specs.Edits.{change_of, edit_outcome, edit_after, projecting, unprojecting, taking_over, all_edited, accepted_edits};
ghost use Rattle.records.specs.Editing.{EditedThrough};

use super::edit::Edit;
use super::record::{Mode, Record};
use values::refusal::Refusal;

/// The projected configuration, opened for edits: the record is in configuration mode until this ends.
pub struct Projection<'a> {
    target: &'a mut Record,
    former: Mode,
}

impl Drop for Projection<'_> {
    /// Puts the former mode back.
    fn drop(self)
        ensures mode { self.exit.0.now.mode ≡ self.entry.former }
        ensures rows { rows self.exit.0.now.rows ≡ rows self.entry.target.now.rows }
    {
        self.target.mode = self.former;
        let Projection {
            target: _,
            former: _,
        } = self;
    }
}

impl<'a> Projection<'a> {
    pub fn open(target: &'a mut Record) -> Projection<'a>
        ensures former { result.former ≡ target.old.mode }
        ensures mode { result.target.now.mode ≡ Mode.Configuration }
        ensures rows { rows result.target.now.rows ≡ rows target.old.rows }
        ensures lender { result.target.ghost_name ≡ target.entry.ghost_name }
    {
        let former = target.mode;
        target.mode = Mode::Configuration;
        Projection { target, former }
    }
}

// Each edit is the record's own call, lent as long as the projection lasts; which of them a value names is asked in `Record::edit` alone.
impl Projection<'_> {
    pub fn project_module(
        &mut self,
        address: u32,
        io: u32,
        id: u32,
        parameter: u32,
    ) -> Result<(), Refusal>
        ensures { EditedThrough (projecting address io id parameter) self.old result self.new }
    {
        self.target.project_module(address, io, id, parameter)
    }

    pub fn unproject_module(&mut self, address: u32) -> Result<(), Refusal>
        ensures { EditedThrough (unprojecting address) self.old result self.new }
    {
        self.target.unproject_module(address)
    }

    pub fn take_over(&mut self) -> Result<(), Refusal>
        ensures { EditedThrough taking_over self.old result self.new }
    {
        self.target.take_over()
    }

    /// Makes an edit.
    pub fn edit(&mut self, edit: Edit) -> Result<(), Refusal>
        ensures { EditedThrough (change_of edit) self.old result self.new }
    {
        self.target.edit(edit)
    }

    // Calls that end the projection: of one that ends otherwise a caller knows less (docs/DECISIONS.md).

    /// Makes an edit, and ends the projection.
    pub fn edit_once(self, last: Edit) -> Result<(), Refusal>
        ensures mode { self.exit.0.now.mode ≡ self.entry.former }
        ensures came_to { outcome (λ u. u) result ≡ edit_outcome self.entry.target.now.mode (change_of last) }
        ensures rows { rows self.exit.0.now.rows
            ≡ edit_after self.entry.target.now.mode (change_of last) (rows self.entry.target.now.rows) }
    {
        self.target.edit(last)
    }

    /// Makes edits, one after another, and ends the projection; how many were accepted.
    pub fn edit_all(self, edits: &[Edit]) -> usize
        ensures mode { self.exit.0.now.mode ≡ self.entry.former }
        ensures accepted { result
            ≡ accepted_edits self.entry.target.now.mode (map change_of edits.now) }
        ensures rows { rows self.exit.0.now.rows ≡ all_edited self.entry.target.now.mode
            (map change_of edits.now) (rows self.entry.target.now.rows) }
    {
        self.target.edit_all(edits)
    }
}

impl Record {
    /// Opens a projection, makes edits through it and ends it; how many were accepted.
    pub fn project_all(&mut self, edits: &[Edit]) -> usize
        ensures mode { self.new.mode ≡ self.old.mode }
        ensures accepted { result ≡ accepted_edits Mode.Configuration (map change_of edits.now) }
        ensures rows { rows self.new.rows
            ≡ all_edited Mode.Configuration (map change_of edits.now) (rows self.old.rows) }
    {
        Projection::open(self).edit_all(edits)
    }
}

/// Opens a projection, projects one address and closes it again, in whatever mode the record is.
pub fn project_once(
    target: &mut Record,
    address: u32,
    io: u32,
    id: u32,
    parameter: u32,
) -> Result<(), Refusal>
    ensures mode { target.new.mode ≡ target.old.mode }
    ensures result { outcome (λ u. u) result
        ≡ edit_outcome Mode.Configuration (projecting address io id parameter) }
    ensures rows { rows target.new.rows
        ≡ edit_after Mode.Configuration (projecting address io id parameter) (rows target.old.rows) }
{
    let mut projection = Projection::open(target);
    projection.project_module(address, io, id, parameter)
}
