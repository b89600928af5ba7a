//! Runs the worst case of the waiting bound, and prints each cycle: a module is plugged in so that it waits as long as any can until it is
//! exchanged.
#![tactic(auto)]

ghost use Rattle.std.specs.Prelude.{◌≡◌, ◌%◌, true, replicate, Ok, Err};
ghost use Rattle.stations.specs.Stations.{place_of, occupied};
ghost use Rattle.stations.specs.Images.{image_of};
ghost use Rattle.promise.specs.Longest.{fresh, all_vacant, former_alone, all_new, with_power};
ghost use Rattle.worst_case.specs.Plugging.{rack_line, Plugs};

use control::cycle::Report;
use lines::line::Line;
use master::master::Master;
use promise::figure::waiting_bound;
use racks::bench::BenchRack;
use records::edit::Edit;
use records::record::Mode;
use runs::call::{Call, Given, Outcome};
use runs::plant::Plant;
use runs::run::run;
use stations::image::{IMAGE_WORDS, POWER_UP, STATIONS};
use stations::station::{Disturbance, Module, Station};
use std::alloc::{AllocError, Global};
use std::{io, mem};
use values::nibble::Nibble;
use values::refusal::Refusal;

/// The address whose module is watched, 1 to 31.
const ADDRESS: u32 = 1;

const IO_CODE: u32 = 1;

/// The I/O code of the module that stands at the address before plugging.
const FORMER_IO_CODE: u32 = 2;

const ID_CODE: u32 = 1;

/// What the field sets at the modules. IDI is 0 until the first exchange, and this afterwards, all ports being inputs.
const INPUTS: u32 = 9;

/// How many calls there are on an empty line: a cycle in each phase before the normal one, and one for each address that the search takes before
/// this one.
const FORMER_PLUGGED: u32 = 3 + ADDRESS;

/// How many calls there are before plugging. In the last of them the search reads the I/O code of the former module.
const PLUGGED: u32 = FORMER_PLUGGED + 1;

/// A module as it comes: not enabled, and nothing disturbs it.
fn module(io_code: u32) -> Station
    ensures { place_of result ≡ occupied (fresh (io_code % 16)) }
{
    Station {
        module: Some(Module {
            io_code: Nibble::low(io_code),
            id_code: Nibble::low(ID_CODE),
            inputs: Nibble::low(INPUTS),
            outputs: Nibble::low(15),
            parameter: Nibble::low(15),
            direction: Nibble::low(0),
            enabled: false,
            disturbance: Disturbance::low(0),
        }),
    }
}

/// An image with power up and the same at every station.
fn uniform_image(station: Station) -> [u32; IMAGE_WORDS]
    ensures { result ≡ image_of true (replicate 32 (place_of station)) }
{
    let mut words = [station.word(); IMAGE_WORDS];
    words[STATIONS] = POWER_UP;
    words
}

fn empty_image() -> [u32; IMAGE_WORDS]
    ensures { result ≡ image_of true all_vacant }
{
    uniform_image(Station { module: None })
}

fn former_image() -> [u32; IMAGE_WORDS]
    ensures { result ≡ image_of true (former_alone 1) }
{
    let mut words = empty_image();
    words[ADDRESS as usize] = module(FORMER_IO_CODE).word();
    words
}

fn full_image() -> [u32; IMAGE_WORDS]
    ensures { result ≡ image_of true all_new }
{
    uniform_image(module(IO_CODE))
}

// By the count of calls, which is all that a plant is told.
/// Swaps the rack: for one with the former module alone, and at plugging for one with a new module at every address.
#[derive(Drop)]
struct Plugging {
    calls: u32,
    former: BenchRack,
    full: BenchRack,
}

impl Plugging {
    fn new() -> Result<Plugging, Refusal>
        ensures { elim result [ Ok p ↦ (p.calls ≡ 0) × (rack_line p.former ≡ with_power (former_alone 1)) × (rack_line p.full ≡ with_power all_new) | Err _ ↦ ⊥ ] }
    {
        Ok(Plugging {
            calls: 0,
            former: BenchRack::open(&former_image())?,
            full: BenchRack::open(&full_image())?,
        })
    }
}

impl Plant<BenchRack> for Plugging {
    ghost alters = { Plugs };

    fn act(&mut self, line: &mut BenchRack) {
        match self.calls {
            FORMER_PLUGGED => mem::swap(line, &mut self.former),
            PLUGGED => mem::swap(line, &mut self.full),
            _ => {}
        }
        self.calls = self.calls.saturating_add(1);
    }
}

/// The search reads the I/O code before plugging and the ID code after it, so that the first cycle finds codes of two modules. The second, in
/// protected mode, does not enter an address whose codes are not the projected ones. The search comes back after all other addresses.
fn script(heap: Global) -> Result<Vec<Call<'static>>, AllocError> {
    let mut calls = vec![in heap; Call::Cycle; PLUGGED as usize]?;
    // What follows: an edit, two settings, and the cycles from plugging on, each with a reading.
    calls.reserve_exact(3 + 2 * (waiting_bound() as usize + 1))?;
    calls.push(Call::Edit(Edit::Project {
        address: ADDRESS,
        io: IO_CODE,
        id: ID_CODE,
        parameter: 5,
    }))?;
    for done in 0..=waiting_bound() {
        match done {
            1 => calls.push(Call::SetMode(Mode::Protected))?,
            2 => calls.push(Call::SetMode(Mode::Configuration))?,
            _ => {}
        }
        calls.push(Call::Cycle)?;
        calls.push(Call::ReadInputs { address: ADDRESS })?;
    }
    Ok(calls)
}

fn show_cycle(rt: &impl Print, number: u32, report: Report, inputs: Nibble) -> io::Result<()> {
    let phase = report.phase.letter();
    let requests = report.requests;
    let exchanged = if u32::from(inputs) == INPUTS {
        "exchanged"
    } else {
        "not exchanged"
    };
    println!(rt; "{number} {phase} {requests} {exchanged}")
}

/// A cycle with the inputs that were read after it.
fn read_after(pair: &[Outcome]) -> Option<(Report, Nibble)> {
    let [ran, read] = pair else {
        return None;
    };
    match (*ran, *read) {
        (Ok(Given::Ran(report)), Ok(Given::Inputs(inputs))) => Some((report, inputs)),
        _ => None,
    }
}

/// Shows the cycles after which the inputs were read, which are those from plugging on.
fn show_cycles(rt: &impl Print, log: &[Outcome]) -> io::Result<()> {
    for (number, (report, inputs)) in (1u32..).zip(log.windows(2).filter_map(read_after)) {
        show_cycle(rt, number, report, inputs)?;
    }
    Ok(())
}

fn show_run(rt: &HostRuntime, line: &mut BenchRack, plugging: &mut Plugging) -> io::Result<()> {
    let script = script(rt.alloc())?;
    let mut log = vec![in rt.alloc(); Ok(Given::Nothing); script.len()]?;
    // No order is placed, so the queues need no places.
    let mut master = Master::new(&mut [], &mut []);
    run(line, plugging, &script, &mut master, &mut log);
    println!(rt;
        "The module at address {ADDRESS} in the worst case: cycle from plugging on, phase, requests, exchanged or not"
    )?;
    show_cycles(rt, &log)
}

/// The empty line, and who will plug modules in.
fn set_up() -> Result<(BenchRack, Plugging), Refusal> {
    Ok((BenchRack::open(&empty_image())?, Plugging::new()?))
}

fn main(rt: HostRuntime) -> io::Result<()> {
    match set_up() {
        Ok((mut line, mut plugging)) => show_run(&rt, &mut line, &mut plugging),
        Err(refusal) => println!(rt; "{refusal}"),
    }
}
