ghost use Rattle.std.specs.Prelude.{◌≡◌, map};
ghost use Rattle.values.specs.Refusals.{outcome};
ghost use Rattle.lines.specs.Lines.{seen};
ghost use Rattle.lines.specs.Sending.{Sends};
ghost use Rattle.control.specs.Cycles.{new_master};
ghost use Rattle.runs.specs.Outcomes.{came};
ghost use Rattle.runs.specs.Runs.{undisturbed, sent_undisturbed, line_undisturbed};
ghost use Rattle.first_cycles.specs.Listed.{script, listed};

use lines::line::Line;
use master::master::Master;
use orders::order::{Answer, Order};
use racks::image_rack::ImageRack;
use runs::call::{Call, Given, Outcome};
use runs::plant::Idle;
use runs::run::run;
use stations::bytes::image_from_bytes;
use values::refusal::Refusal;

/// How many calls are made: each of four cycles is followed by a reading of the lists.
pub const CALLS: usize = 8;

const SCRIPT: [Call<'static>; CALLS] = [
    Call::Cycle,
    Call::ReadLists,
    Call::Cycle,
    Call::ReadLists,
    Call::Cycle,
    Call::ReadLists,
    Call::Cycle,
    Call::ReadLists,
];

/// Four cycles of a new master, each followed by a reading of the lists.
pub fn on_line<L: Line>(line: &mut L) -> [Outcome; CALLS]
    ensures came_to { map came result
        ≡ undisturbed script (seen L.power L.stations line.old) (new_master 0 0) }
    ensures sends { Sends L.carried line.old
        (sent_undisturbed script (seen L.power L.stations line.old) (new_master 0 0)) line.new }
    ensures left { seen L.power L.stations line.new
        ≡ line_undisturbed script (seen L.power L.stations line.old) (new_master 0 0) }
{
    let mut log = [Ok(Given::Nothing); CALLS];
    // No order is placed, so the queues need no places.
    let mut orders: [Order; 0] = [];
    let mut answers: [Answer; 0] = [];
    let mut master = Master::new(&mut orders, &mut answers);
    run(line, &mut Idle, &SCRIPT, &mut master, &mut log);
    log
}

/// The same on the line that 132 bytes say.
pub fn on_image(bytes: &[u8]) -> Result<[Outcome; CALLS], Refusal>
    ensures { outcome (map came) result ≡ listed bytes.now }
{
    let mut words = image_from_bytes(bytes)?;
    let mut rack = ImageRack::open(&mut words)?;
    Ok(on_line(&mut rack))
}
