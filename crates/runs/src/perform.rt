ghost use Rattle.std.specs.Prelude.{◌≡◌};
ghost use Rattle.queues.specs.Fifo.{UnchangedIfRefused};
ghost use Rattle.lines.specs.Lines.{seen};
ghost use Rattle.lines.specs.Sending.{Sends};
ghost use Rattle.runs.specs.Outcomes.{came, Performed, sent_for};

use super::call::{Call, Given, Outcome};
use lines::line::Line;
use master::master::Master;

/// Makes one call.
pub fn perform<L: Line>(call: Call<'_>, line: &mut L, master: &mut Master<'_>) -> Outcome
    ensures performed { Performed call.entry (seen L.power L.stations line.old) master.old
        (came result) (seen L.power L.stations line.new) master.new }
    ensures sends { Sends L.carried line.old
        (sent_for call.entry (seen L.power L.stations line.old) master.old) line.new }
    ensures refused { UnchangedIfRefused result master.old.queues master.new.queues }
{
    match call {
        Call::Cycle => Ok(Given::Ran(master.cycle(line))),
        Call::PlaceParameter { address, value } => {
            master.place_parameter(address, value)?;
            Ok(Given::Nothing)
        }
        Call::PlaceReset { address } => master.place_reset(address).map(|()| Given::Nothing),
        Call::Collect => master.collect().map(Given::Collected),
        Call::WriteOutputs { address, outputs } => master
            .write_outputs(address, outputs)
            .map(|()| Given::Nothing),
        Call::ReadInputs { address } => master.read_inputs(address).map(Given::Inputs),
        Call::ReadLists => Ok(Given::Lists(master.read_lists())),
        Call::SetMode(mode) => master.set_mode(mode).map(|()| Given::Nothing),
        Call::SetOffline(offline) => {
            master.set_offline(offline);
            Ok(Given::Nothing)
        }
        Call::Edit(edit) => master.edit(edit).map(|()| Given::Nothing),
        Call::Project(edits) => Ok(Given::Projected(master.project(edits))),
    }
}
