use super::master::MasterWith;
use orders::pair::Queues;
use records::edit::Edit;
use records::projection::Projection;
use records::record::Mode;

impl MasterWith<Queues<'_>> {
    ghost use Rattle.std.specs.Prelude.{◌≡◌, map};
    ghost use Rattle.records.specs.Edits.{change_of};
    ghost use Rattle.promise.specs.Successions.{projecting_all};
    ghost use Rattle.promise.specs.Outcomes.{projected};
    ghost use Rattle.master.specs.Masters.{Calls};

    /// Opens a projection, makes edits through it and closes it; how many were accepted.
    pub fn project(&mut self, edits: &[Edit]) -> usize
        ensures called { Calls (projecting_all (map change_of edits.now)) self.old (projected result) self.new }
        ensures queues { self.new.queues ≡ self.old.queues }
    {
        self.control.table.project_all(edits)
    }
}

impl<Q> MasterWith<Q> {
    ghost use Rattle.std.specs.Borrow.{sem};
    ghost use Rattle.std.specs.Prelude.{◌≡◌};
    ghost use Rattle.records.specs.Records.{rows};
    ghost use Rattle.master.specs.Lending.{LendsProjected};

    /// The projected configuration, opened for edits: the master is in configuration mode until this ends.
    pub fn projection(&mut self) -> Projection<'_>
        ensures* lends { sem 𝓛 (LendsProjected Q.row self.entry result) }
        ensures former { result.former ≡ self.old.control.table.mode }
        ensures mode { result.target.now.mode ≡ Mode.Configuration }
        ensures rows { rows result.target.now.rows ≡ rows self.old.control.table.rows }
    {
        let control = &mut self.control;
        Projection::open(&mut control.table)
    }
}
