//! A line that keeps the requests that it is given. Its relation `carried` says that one more was counted, and carried below: so what contracts say of
//! requests is said of this count. The test looks into the table.
ghost use Rattle.std.specs.Prelude.{◌≡◌, ◌+◌, ◌-◌, ◌^◌, min};

use crate::script::*;
use control::control::Phase;
use lines::line::Line;
use master::master::Master;
use racks::bench::BenchRack;
use stations::image::{IMAGE_WORDS, POWER_UP};
use std::process::Abort;
use std::test::*;
use telegrams::request::{Reply, Request};
use telegrams::word::encode_request;
use values::address::Address;
use values::module_address::ModuleAddress;

/// A cycle sends at most 64 requests, in detection.
const KEPT: usize = 64;

/// A line that keeps the words of the requests that it carries.
#[derive(Drop)]
struct Recorder<L> {
    below: L,
    words: [u32; KEPT],
    count: usize,
}

impl<L: Line> Line for Recorder<L> {
    ghost power = { λ r. L.Line.power r.below };

    ghost stations = { λ r. L.Line.stations r.below };

    ghost carried = { λ r q s. (s.count ≡ min (r.count + 1) (2 ^ 64 - 1)) × L.Line.carried r.below q s.below };

    fn is_powered(&self) -> bool {
        self.below.is_powered()
    }

    fn carry(&mut self, request: Request) -> Reply {
        if let Some(word) = self.words.get_mut(self.count) {
            *word = encode_request(request);
        }
        self.count = self.count.saturating_add(1);
        self.below.carry(request)
    }
}

/// The words of the Data_Exchanges that are due, lowest address first; how many they are.
fn due(master: &Master<'_>, words: &mut [u32; KEPT]) -> usize {
    let mut count = 0;
    for a in 0..31u32 {
        let to = ModuleAddress::nth(a);
        let at = Address::from(to);
        if master.record().rows.is_active(at) {
            let odi = master.record().rows.entry(at).odi;
            if let Some(word) = words.get_mut(count) {
                *word = encode_request(Request::DataExchange(to, odi));
            }
            count = count.saturating_add(1);
        }
    }
    count
}

/// Runs one cycle: the line is given as many requests as the cycle reports, and in a normal one first the exchanges that are due, in order.
fn check_cycle<L: Line>(rt: &impl Abort, master: &mut Master<'_>, line: &mut Recorder<L>) -> Phase {
    let mut expected = [0; KEPT];
    let exchanges = due(master, &mut expected).min(KEPT);
    line.count = 0;
    let report = master.cycle(line);
    assert_eq!(rt; line.count, report.requests as usize);
    if report.phase == Phase::Normal {
        assert!(rt; line.count >= exchanges && line.count <= exchanges + 2);
        assert_eq!(rt; line.words[..exchanges], expected[..exchanges]);
    }
    report.phase
}

#[test]
fn requests_sent(rt: HostRuntime) -> Result<(), Fail> {
    // Modules at 1 to 31 but 20: one is disturbed twice, one never exchanges.
    let mut words = [MODULE; IMAGE_WORDS];
    words[0] = 0;
    words[7] = MODULE | 0x20;
    words[9] = 0x4F09_FF00;
    words[20] = 0;
    words[32] = POWER_UP;
    let Ok(below) = BenchRack::open(&words) else {
        return Err(Fail::new("good image refused"));
    };
    let mut line = Recorder {
        below,
        words: [0; KEPT],
        count: 0,
    };
    let mut orders = [any_answer().order; 2];
    let mut answers = [any_answer(); 2];
    let mut master = Master::new(&mut orders, &mut answers);
    let mut normal = 0u32;
    for k in 0..200u32 {
        let _ = master.place_reset(k % 31 + 1);
        let _ = master.write_outputs(k % 31 + 1, k % 16);
        if check_cycle(&rt, &mut master, &mut line) == Phase::Normal {
            normal = normal.saturating_add(1);
        }
        let _ = master.collect();
    }
    assert_eq!(rt; normal, 197);
    Ok(())
}
