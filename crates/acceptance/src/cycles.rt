use crate::script::*;
use lines::line::Line;
use lines::repeater::Repeater;
use master::master::Master;
use racks::bench::BenchRack;
use racks::image_rack::ImageRack;
use std::process::Abort;
use std::test::*;

/// The first four cycles on a line with one module, at address 3.
fn check_first_cycles<L: Line>(rt: &impl Abort, line: &mut L) -> Result<(), Fail> {
    let mut master = Master::new(&mut [], &mut []);
    for (letter, requests, lds, las) in [
        ('O', 0, 0, 0),
        ('D', 33, 8, 0),
        ('A', 1, 8, 8),
        ('N', 2, 8, 8),
    ] {
        let report = master.cycle(line);
        assert_eq!(rt; reported(report), (letter, requests));
        let listing = master.read_lists();
        assert_eq!(rt; (listing.lds, listing.las), (lds, las));
    }
    Ok(())
}

#[test]
fn first_cycles(rt: HostRuntime) -> Result<(), Fail> {
    let words = one_module().words;
    let mut held = words;
    match (
        BenchRack::open(&words),
        BenchRack::open(&words),
        ImageRack::open(&mut held),
    ) {
        (Ok(mut bench), Ok(below), Ok(mut rack)) => {
            check_first_cycles(&rt, &mut bench)?;
            check_first_cycles(&rt, &mut Repeater::over(below))?;
            check_first_cycles(&rt, &mut rack)
        }
        _ => Err(Fail::new("good image refused")),
    }
}

/// The offline phase lasts until neither the request nor the power supply asks for it, and one cycle more.
#[test]
fn offline_and_power(rt: HostRuntime) -> Result<(), Fail> {
    let offline = CONFIG_OK | CONFIGURATION | OFFLINE;
    follow(
        &rt,
        Start {
            cycles: 0,
            ..one_module()
        },
        &[
            Row::Cycle('O', 0),
            Row::Lists(0, 0, 0, CONFIG_OK | CONFIGURATION),
            Row::Cycle('D', 33),
            Row::Lists(8, 0, 0, CONFIGURATION),
            Row::Cycle('A', 1),
            Row::Lists(8, 8, 0, CONFIGURATION | NORMAL),
            Row::Cycle('N', 2),
            Row::Lists(8, 8, 0, CONFIGURATION | NORMAL),
            Row::Offline(true),
            Row::Lists(8, 8, 0, CONFIGURATION | NORMAL | OFFLINE),
            Row::Cycle('O', 0),
            Row::Lists(0, 0, 0, offline),
            Row::Power(false),
            Row::Cycle('O', 0),
            Row::Lists(0, 0, 0, offline | POWER_FAIL),
            Row::Offline(false),
            Row::Cycle('O', 0),
            Row::Lists(0, 0, 0, CONFIG_OK | CONFIGURATION | POWER_FAIL),
            Row::Power(true),
            Row::Cycle('O', 0),
            Row::Lists(0, 0, 0, CONFIG_OK | CONFIGURATION),
            Row::Cycle('D', 33),
            Row::Cycle('A', 1),
            Row::Cycle('N', 2),
            Row::Lists(8, 8, 0, CONFIGURATION | NORMAL),
        ],
    )
}

#[test]
fn answers(rt: HostRuntime) -> Result<(), Fail> {
    follow(
        &rt,
        one_module(),
        &[
            Row::Parameter(3, 5, OK),
            Row::Parameter(5, 4, 0x8382),
            Row::Reset(3, OK),
            Row::Cycle('N', 3),
            Row::Word(3, 0x4709_F580),
            Row::Cycle('N', 3),
            Row::Word(3, MODULE),
            Row::Cycle('N', 2),
            Row::Collect(Collected::Nibble(5)),
            Row::Collect(Collected::Nibble(6)),
            Row::Collect(Collected::Refused(0x8312)),
        ],
    )?;
    // A module that was reset is silent in data exchange: the third miss drops it before the fourth order's turn.
    follow(
        &rt,
        one_module(),
        &[
            Row::Reset(3, OK),
            Row::Reset(3, OK),
            Row::Reset(3, OK),
            Row::Parameter(3, 5, OK),
            Row::Cycle('N', 3),
            Row::Cycle('N', 3),
            Row::Cycle('N', 3),
            Row::Lists(8, 8, 0, CONFIGURATION | NORMAL),
            Row::Cycle('N', 2),
            Row::Lists(0, 0, 0, CONFIG_OK | CONFIGURATION | NORMAL),
            Row::Collect(Collected::Nibble(6)),
            Row::Collect(Collected::Nibble(6)),
            Row::Collect(Collected::Nibble(6)),
            Row::Collect(Collected::NotActive(0x8382)),
        ],
    )?;
    // Data exchange comes before the order: both requests are disturbed.
    for (word, expected) in [
        (0, Collected::Silent(0x8383)),
        (0x4709_FFA0, Collected::Disturbed(0x8383)),
    ] {
        follow(
            &rt,
            one_module(),
            &[
                Row::Parameter(3, 5, OK),
                Row::Plug(3, word),
                Row::Cycle('N', 3),
                Row::Collect(expected),
            ],
        )?;
    }
    Ok(())
}

#[test]
fn outputs_and_inputs(rt: HostRuntime) -> Result<(), Fail> {
    for n in 0..16u16 {
        let driven = 15 - n;
        for (direction, inputs) in [(0, 9), (3, driven & 3 | 8), (15, driven)] {
            let module = MODULE | direction;
            follow(
                &rt,
                normal(&[(3, module)]),
                &[
                    Row::Outputs(3, u32::from(n), OK),
                    Row::Inputs(3, 0),
                    Row::Word(3, module | 0x80),
                    Row::Cycle('N', 2),
                    Row::Word(3, 0x4709_0F80 | u32::from(driven) << 12 | direction),
                    Row::Inputs(3, inputs),
                ],
            )?;
        }
    }
    Ok(())
}
