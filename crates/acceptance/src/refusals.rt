use crate::script::*;
use records::edit::Edit;
use records::record::Mode;
use std::test::*;

fn project(address: u32, io: u32, id: u32, parameter: u32) -> Edit {
    Edit::Project {
        address,
        io,
        id,
        parameter,
    }
}

/// Every call that takes an address; a value too, where it takes one.
fn at_address(address: u32, value: u32, number: u16) -> [Row; 8] {
    let edit = project(address, value, value, value);
    [
        Row::Inputs(address, number),
        Row::Outputs(address, value, number),
        Row::Parameter(address, value, number),
        Row::Reset(address, number),
        Row::Edit(edit, number),
        Row::Through(edit, number),
        Row::Edit(Edit::Unproject(address), number),
        Row::Through(Edit::Unproject(address), number),
    ]
}

#[test]
fn bad_address(rt: HostRuntime) -> Result<(), Fail> {
    let start = normal(&[(1, MODULE), (31, MODULE)]);
    for address in [1, 31] {
        follow(&rt, start, &at_address(address, 15, OK))?;
    }
    for address in [0, 32, 0xFFFF_FFFF] {
        for value in [15, 16] {
            let rows = at_address(address, value, 0x8381);
            follow(&rt, start, &rows)?;
            follow(&rt, Start { cycles: 0, ..start }, &rows)?;
            let mode = Mode::Protected;
            follow(&rt, Start { mode, ..start }, &rows)?;
            let answer_room = 0;
            follow(
                &rt,
                Start {
                    answer_room,
                    ..start
                },
                &rows,
            )?;
        }
    }
    Ok(())
}

/// Every call that takes a value, but for orders: what it comes to, and an edit outside a projection.
fn with_value(value: u32, number: u16, edited: u16) -> [Row; 7] {
    let io = project(3, value, 15, 15);
    let id = project(3, 15, value, 15);
    let parameter = project(3, 15, 15, value);
    [
        Row::Outputs(3, value, number),
        Row::Edit(io, edited),
        Row::Edit(id, edited),
        Row::Edit(parameter, edited),
        Row::Through(io, number),
        Row::Through(id, number),
        Row::Through(parameter, number),
    ]
}

#[test]
fn bad_value(rt: HostRuntime) -> Result<(), Fail> {
    let protected = Start {
        mode: Mode::Protected,
        ..one_module()
    };
    follow(&rt, one_module(), &[Row::Parameter(3, 15, OK)])?;
    follow(&rt, one_module(), &with_value(15, OK, OK))?;
    follow(&rt, protected, &with_value(15, OK, 0x8384))?;
    for value in [16, 0xFFFF_FFFF] {
        follow(&rt, one_module(), &with_value(value, 0x8310, 0x8310))?;
        follow(&rt, protected, &with_value(value, 0x8310, 0x8310))?;
        for cycles in 0..4 {
            for answer_room in [0, ROOM] {
                let start = Start {
                    cycles,
                    answer_room,
                    ..one_module()
                };
                let rows = [
                    Row::Parameter(3, value, 0x8310),
                    Row::Parameter(5, value, 0x8310),
                ];
                follow(&rt, start, &rows)?;
            }
        }
    }
    Ok(())
}

/// Both orders for an address.
fn orders(address: u32, number: u16) -> [Row; 2] {
    [
        Row::Parameter(address, 15, number),
        Row::Reset(address, number),
    ]
}

#[test]
fn order_in_another_phase(rt: HostRuntime) -> Result<(), Fail> {
    for cycles in 0..3 {
        for room in [0, ROOM] {
            let start = Start {
                cycles,
                order_room: room,
                answer_room: room,
                ..one_module()
            };
            follow(&rt, start, &orders(3, 0x8384))?;
            follow(&rt, start, &orders(5, 0x8384))?;
        }
    }
    follow(&rt, one_module(), &orders(3, OK))?;
    follow(
        &rt,
        one_module(),
        &[
            Row::Offline(true),
            Row::Parameter(3, 5, OK),
            Row::Cycle('O', 0),
            Row::Parameter(3, 5, 0x8384),
            Row::Offline(false),
            Row::Cycle('O', 0),
            Row::Parameter(3, 5, 0x8384),
            Row::Cycle('D', 33),
            Row::Parameter(3, 5, 0x8384),
            Row::Cycle('A', 1),
            Row::Parameter(3, 5, OK),
        ],
    )
}

#[test]
fn edit_in_protected_mode(rt: HostRuntime) -> Result<(), Fail> {
    let edit = project(3, 7, 0, 5);
    follow(
        &rt,
        Start {
            mode: Mode::Protected,
            ..one_module()
        },
        &[
            Row::Lists(8, 8, 0, NORMAL),
            Row::Edit(edit, 0x8384),
            Row::Through(edit, OK),
            Row::Lists(8, 8, 8, CONFIG_OK | NORMAL),
            Row::Edit(Edit::Unproject(3), 0x8384),
            Row::Through(Edit::Unproject(3), OK),
            Row::Lists(8, 8, 0, NORMAL),
            Row::Edit(Edit::TakeOver, 0x8384),
            Row::Through(Edit::TakeOver, OK),
            Row::Lists(8, 8, 8, CONFIG_OK | NORMAL),
            Row::Edit(edit, 0x8384),
            Row::Mode(Mode::Configuration, OK),
            Row::Edit(Edit::Unproject(3), OK),
            Row::Edit(edit, OK),
            Row::Edit(Edit::TakeOver, OK),
            Row::Lists(8, 8, 8, CONFIG_OK | CONFIGURATION | NORMAL),
        ],
    )
}

/// An address is not active where nothing stands, where the I/O code is 15, and in protected mode where nothing is projected.
#[test]
fn order_for_another_address(rt: HostRuntime) -> Result<(), Fail> {
    let modules = normal(&[(3, MODULE), (5, 0x4F09_FF00)]);
    for room in [0, ROOM] {
        let start = Start {
            order_room: room,
            answer_room: room,
            ..modules
        };
        follow(&rt, start, &[Row::Lists(40, 8, 0, CONFIGURATION | NORMAL)])?;
        for address in [4, 5] {
            follow(&rt, start, &orders(address, 0x8382))?;
        }
    }
    follow(&rt, modules, &orders(3, OK))?;
    follow(
        &rt,
        Start {
            cycles: 2,
            mode: Mode::Protected,
            ..modules
        },
        &[
            Row::Cycle('A', 0),
            Row::Lists(40, 0, 0, NORMAL),
            Row::Parameter(3, 15, 0x8382),
            Row::Reset(3, 0x8382),
        ],
    )
}

#[test]
fn full_queue(rt: HostRuntime) -> Result<(), Fail> {
    for (order_room, answer_room) in [(0, 0), (0, ROOM), (ROOM, 0)] {
        let start = Start {
            order_room,
            answer_room,
            ..one_module()
        };
        follow(&rt, start, &orders(3, 0x8311))?;
    }
    follow(
        &rt,
        Start {
            order_room: 2,
            ..one_module()
        },
        &[
            Row::Parameter(3, 1, OK),
            Row::Parameter(3, 2, OK),
            Row::Parameter(3, 3, 0x8311),
            Row::Reset(3, 0x8311),
            Row::Cycle('N', 3),
            Row::Parameter(3, 4, OK),
            Row::Parameter(3, 5, 0x8311),
        ],
    )?;
    follow(
        &rt,
        Start {
            answer_room: 2,
            ..one_module()
        },
        &[
            Row::Parameter(3, 1, OK),
            Row::Parameter(3, 2, OK),
            Row::Parameter(3, 3, 0x8311),
            Row::Cycle('N', 3),
            Row::Parameter(3, 4, 0x8311),
            Row::Cycle('N', 3),
            Row::Reset(3, 0x8311),
            Row::Collect(Collected::Nibble(1)),
            Row::Parameter(3, 5, OK),
            Row::Parameter(3, 6, 0x8311),
            Row::Cycle('N', 3),
            Row::Collect(Collected::Nibble(2)),
            Row::Collect(Collected::Nibble(5)),
            Row::Collect(Collected::Refused(0x8312)),
        ],
    )
}

#[test]
fn protected_mode_with_address_zero(rt: HostRuntime) -> Result<(), Fail> {
    let start = normal(&[(0, MODULE)]);
    for cycles in 0..2 {
        follow(
            &rt,
            Start { cycles, ..start },
            &[Row::Mode(Mode::Protected, OK)],
        )?;
    }
    for cycles in 2..4 {
        let rows = [
            Row::Mode(Mode::Protected, 0x8385),
            Row::Mode(Mode::Configuration, OK),
        ];
        follow(&rt, Start { cycles, ..start }, &rows)?;
    }
    // In the normal phase a module is detected in two cycles: one for each code.
    follow(
        &rt,
        normal(&[]),
        &[
            Row::Plug(0, MODULE),
            Row::Cycle('N', 1),
            Row::Mode(Mode::Protected, OK),
            Row::Cycle('N', 1),
            Row::Lists(1, 0, 0, ADDRESS_ZERO | NORMAL),
            Row::Mode(Mode::Protected, 0x8385),
            Row::Mode(Mode::Configuration, OK),
            Row::Mode(Mode::Protected, 0x8385),
            Row::Offline(true),
            Row::Cycle('O', 0),
            Row::Mode(Mode::Protected, OK),
        ],
    )
}

#[test]
fn no_answer(rt: HostRuntime) -> Result<(), Fail> {
    let none = Row::Collect(Collected::Refused(0x8312));
    follow(
        &rt,
        one_module(),
        &[
            none,
            Row::Parameter(3, 5, OK),
            none,
            Row::Cycle('N', 3),
            Row::Collect(Collected::Nibble(5)),
            none,
            none,
        ],
    )
}
