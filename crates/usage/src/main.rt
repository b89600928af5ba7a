//! A master on a rack with one module, at address 3: four cycles bring it to the normal phase, an order for the module is placed, the next cycle carries it
//! out, and its answer is collected.
#![tactic(auto)]

use master::master::Master;
use orders::order::{Answer, Order, Unanswered};
use racks::image_rack::ImageRack;
use stations::image::{IMAGE_WORDS, POWER_UP, STATIONS};
use std::io;
use values::refusal::Refusal;

/// Gives the module the parameter 5. The slices under the queues hold some order and some answer from the start; the queues are empty.
fn set_parameter() -> Result<Answer, Refusal> {
    let mut words = [0; IMAGE_WORDS];
    words[3] = 0x4709_FF00;
    words[STATIONS] = POWER_UP;
    let mut rack = ImageRack::open(&mut words)?;
    let order = Order::reset(3)?;
    let result = Err(Unanswered::Silent);
    let mut orders = [order; 4];
    let mut answers = [Answer { order, result }; 4];
    let mut master = Master::new(&mut orders, &mut answers);
    for _ in 0..4 {
        master.cycle(&mut rack);
    }
    master.place_parameter(3, 5)?;
    master.cycle(&mut rack);
    master.collect()
}

fn main(rt: HostRuntime) -> io::Result<()> {
    match set_parameter().map(|answer| answer.result) {
        Ok(Ok(nibble)) => println!(rt; "{}", nibble.get()),
        Ok(Err(unanswered)) => println!(rt; "{:x}", unanswered.number()),
        Err(refusal) => println!(rt; "{refusal}"),
    }
}
