use crate::script::*;
use master::master::Master;
use racks::bench::BenchRack;
use records::edit::Edit;
use records::record::Mode;
use runs::call::{Call, Given, Outcome};
use runs::plant::Plant;
use runs::run::run;
use std::test::*;

/// Takes every module away after `left` calls.
#[derive(Drop)]
struct Unplugging {
    left: u32,
}

impl Plant<BenchRack> for Unplugging {
    ghost alters = { λ _ _ _ _. Unit {0} };

    fn act(&mut self, line: &mut BenchRack) {
        if self.left > 0 {
            self.left -= 1;
        } else if let Ok(rack) = BenchRack::open(&image(&[])) {
            *line = rack;
        }
    }
}

const CALLS: usize = 17;

/// One call more than is made.
fn calls(edits: &[Edit]) -> [Call<'_>; 18] {
    [
        Call::Cycle,
        Call::Cycle,
        Call::SetMode(Mode::Protected),
        Call::Edit(Edit::TakeOver),
        Call::Project(edits),
        Call::Cycle,
        Call::PlaceParameter {
            address: 3,
            value: 5,
        },
        Call::Cycle,
        Call::Collect,
        Call::WriteOutputs {
            address: 3,
            outputs: 16,
        },
        Call::ReadInputs { address: 3 },
        Call::PlaceReset { address: 3 },
        Call::Cycle,
        Call::Collect,
        Call::Collect,
        Call::ReadLists,
        Call::SetOffline(true),
        Call::Cycle,
    ]
}

/// An outcome as a number: the number that the controller is given, or requests, nibble, LDS or edits.
fn shown(outcome: Outcome) -> u64 {
    match outcome {
        Ok(Given::Nothing) => 0,
        Ok(Given::Ran(report)) => u64::from(report.requests),
        Ok(Given::Collected(answer)) => match answer.result {
            Ok(nibble) => u64::from(nibble.get()),
            Err(unanswered) => u64::from(unanswered.number()),
        },
        Ok(Given::Inputs(nibble)) => u64::from(nibble.get()),
        Ok(Given::Lists(listing)) => u64::from(listing.lds),
        Ok(Given::Projected(accepted)) => accepted as u64,
        Err(refusal) => u64::from(refusal.number()),
    }
}

#[test]
fn script_with_plant(rt: HostRuntime) -> Result<(), Fail> {
    let mut log = [Ok(Given::Nothing); CALLS];
    let Ok(mut rack) = BenchRack::open(&one_module().words) else {
        return Err(Fail::new("good image refused"));
    };
    let mut orders = [any_answer().order];
    let mut answers = [any_answer()];
    let mut master = Master::new(&mut orders, &mut answers);
    let made = run(
        &mut rack,
        &mut Unplugging { left: 12 },
        &calls(&[Edit::TakeOver, Edit::Unproject(0)]),
        &mut master,
        &mut log,
    );
    assert_eq!(rt; made, CALLS);
    let expected: [u64; CALLS] = [
        0, 33, 0, 0x8384, 1, 1, 0, 3, 5, 0x8310, 9, 0, 3, 0x8383, 0x8312, 8, 0,
    ];
    for (i, (outcome, expected)) in log.iter().zip(expected.iter()).enumerate() {
        assert_eq!(rt; shown(*outcome), *expected, "{}", i);
    }
    Ok(())
}
