//! What may be done with a projection and what it borrows. Each is the rightful twin of a misuse that `scripts/test-misuse` has the compiler refuse: the same lines in another order.
ghost use Rattle.std.specs.Prelude.{◌≡◌};
ghost use Rattle.records.specs.Records.{rows};
ghost use Rattle.records.specs.Edits.{change_of, edit_after};

use crate::script::one_module;
use lines::line::Line;
use master::master::Master;
use phases::offline::clear;
use racks::bench::BenchRack;
use records::edit::Edit;
use records::projection::Projection;
use records::record::{Mode, Record};
use std::test::*;
use values::address::Address;
use values::refusal::Refusal;

fn protected() -> Record {
    let mut record = Record::new();
    let _ = record.set_mode(Mode::Protected);
    record
}

#[test]
fn edit_then_close(rt: HostRuntime) {
    let mut record = protected();
    let mut projection = Projection::open(&mut record);
    let edited = projection.project_module(3, 7, 0, 5);
    drop(projection);
    assert!(rt; edited.is_ok());
    assert!(rt; record.mode() == Mode::Protected);
    assert!(rt; record.rows.is_projected(Address::low(3)));
}

#[test]
fn close_then_run_a_part_of_the_cycle(rt: HostRuntime) {
    let mut record = protected();
    let mut projection = Projection::open(&mut record);
    let edited = projection.project_module(3, 7, 0, 5);
    drop(projection);
    clear(&mut record.rows);
    assert!(rt; edited.is_ok());
    assert!(rt; record.rows.is_projected(Address::low(3)));
}

fn edit_close_and_run_a_cycle<L: Line>(
    master: &mut Master<'_>,
    line: &mut L,
) -> Result<(), Refusal> {
    let mut projection = master.projection();
    let edited = projection.unproject_module(3);
    drop(projection);
    master.cycle(line);
    edited
}

#[test]
fn close_then_run_a_cycle(rt: HostRuntime) -> Result<(), Fail> {
    let Ok(mut rack) = BenchRack::open(&one_module().words) else {
        return Err(Fail::new("good image refused"));
    };
    let mut master = Master::new(&mut [], &mut []);
    let edited = edit_close_and_run_a_cycle(&mut master, &mut rack);
    assert!(rt; edited.is_ok());
    Ok(())
}

/// Makes two edits through projections that end with them. Whoever lends a projection from a master knows it afterwards.
fn edit_twice(master: &mut Master<'_>, first: Edit, second: Edit) -> bool
    ensures queues { master.new.queues ≡ master.old.queues }
    ensures mode { master.new.control.table.mode ≡ master.old.control.table.mode }
    ensures rest { master.new.control ≡ record master.old.control { table = master.new.control.table } }
    ensures rows { rows master.new.control.table.rows
        ≡ edit_after Mode.Configuration (change_of second)
        (edit_after Mode.Configuration (change_of first) (rows master.old.control.table.rows)) }
{
    let edited = master.projection().edit_once(first).is_ok();
    let also = master.projection().edit_once(second).is_ok();
    edited && also
}

#[test]
fn edits_in_protected_mode(rt: HostRuntime) {
    let mut master = Master::new(&mut [], &mut []);
    let set = master.set_mode(Mode::Protected);
    let edit = Edit::Project {
        address: 3,
        io: 7,
        id: 0,
        parameter: 5,
    };
    let edited = edit_twice(&mut master, edit, Edit::Unproject(4));
    assert!(rt; set.is_ok() && edited);
    assert!(rt; master.record().mode() == Mode::Protected);
    assert!(rt; master.record().rows.is_projected(Address::low(3)));
}
