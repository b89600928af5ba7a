ghost use Rattle.std.specs.Prelude.{◌≡◌};
ghost use Rattle.exports.specs.Counting.{counted};

use master::master::Master;
use racks::bench::BenchRack;

/// Runs cycles of a new master on a bench rack; how many requests they report, modulo 2^32.
#[unsafe(no_mangle)]
pub extern "C" fn asi_cycles(words: &[u32], cycles: u32) -> u32
    ensures { result ≡ counted words.now cycles }
{
    let mut bench = match BenchRack::open(words) {
        Ok(bench) => bench,
        Err(refusal) => return u32::from(refusal.number()),
    };
    // No order is placed, so the queues need no places.
    let mut master = Master::new(&mut [], &mut []);
    let mut sent = 0u32;
    for _done in 0..cycles {
        let report = master.cycle(&mut bench);
        sent = sent.wrapping_add(report.requests);
    }
    sent
}
