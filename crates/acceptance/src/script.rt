//! Scripts of calls on a new master on an image rack, each call with what it is to come to.
use control::control::Listing;
use control::cycle::Report;
use master::master::Master;
use orders::order::{Answer, Order, Unanswered};
use racks::image_rack::ImageRack;
use records::edit::Edit;
use records::entry::Entry;
use records::record::Mode;
use records::rows::ADDRESSES;
use stations::image::{IMAGE_WORDS, STATIONS, power_word};
use std::array;
use std::process::Abort;
use std::test::*;
use values::address::Address;
use values::module_address::ModuleAddress;
use values::nibble::Nibble;
use values::refusal::Refusal;

/// A module with I/O code 7, ID code 0 and inputs 9, as new.
pub(crate) const MODULE: u32 = 0x4709_FF00;

/// The most that a queue of a script holds.
pub(crate) const ROOM: usize = 4;

/// The number of a call that was accepted.
pub(crate) const OK: u16 = 0;

pub(crate) const CONFIG_OK: u32 = 1;

pub(crate) const ADDRESS_ZERO: u32 = 2;

pub(crate) const CONFIGURATION: u32 = 4;

pub(crate) const NORMAL: u32 = 8;

pub(crate) const POWER_FAIL: u32 = 16;

pub(crate) const OFFLINE: u32 = 32;

/// What collecting came to.
#[derive(Clone, Copy, PartialEq, Debug)]
pub(crate) enum Collected {
    Nibble(u8),
    NotActive(u16),
    Silent(u16),
    Disturbed(u16),
    Refused(u16),
}

/// One call, and last in it what it is to come to: a number where it may be refused.
#[derive(Clone, Copy)]
pub(crate) enum Row {
    /// The letter of the phase, and how many requests were sent.
    Cycle(char, u32),
    Parameter(u32, u32, u16),
    Reset(u32, u16),
    Collect(Collected),
    Outputs(u32, u32, u16),
    /// The nibble or the number.
    Inputs(u32, u16),
    /// LDS, LAS, LPS and the flags.
    Lists(u32, u32, u32, u32),
    Mode(Mode, u16),
    Offline(bool),
    Edit(Edit, u16),
    /// An edit through a projection that is opened for it.
    Through(Edit, u16),
    /// A module, or vacancy, is put at an address.
    Plug(usize, u32),
    /// The power supply goes up or down.
    Power(bool),
    /// The image word at an address.
    Word(usize, u32),
}

/// What a script starts from: an image, the rooms of the queues, how many cycles were run, and the mode that was set then.
#[derive(Clone, Copy)]
pub(crate) struct Start {
    pub words: [u32; IMAGE_WORDS],
    pub order_room: usize,
    pub answer_room: usize,
    pub cycles: u32,
    pub mode: Mode,
}

/// An image with these words; power is up unless one of them says otherwise.
pub(crate) fn image(modules: &[(usize, u32)]) -> [u32; IMAGE_WORDS] {
    let mut words = [0; IMAGE_WORDS];
    words[STATIONS] = power_word(true);
    for (at, word) in modules {
        if *at < IMAGE_WORDS {
            words[*at] = *word;
        }
    }
    words
}

/// The normal phase, with these modules.
pub(crate) fn normal(modules: &[(usize, u32)]) -> Start {
    Start {
        words: image(modules),
        order_room: ROOM,
        answer_room: ROOM,
        cycles: 3,
        mode: Mode::Configuration,
    }
}

/// The normal phase, with one module, at address 3.
pub(crate) fn one_module() -> Start {
    normal(&[(3, MODULE)])
}

fn flag(holds: bool, bit: u32) -> u32 {
    if holds { bit } else { 0 }
}

fn listed(listing: Listing) -> [u32; 4] {
    let flags = flag(listing.config_ok, CONFIG_OK)
        | flag(listing.address_zero, ADDRESS_ZERO)
        | flag(listing.configuration_active, CONFIGURATION)
        | flag(listing.normal_operation_active, NORMAL)
        | flag(listing.power_fail, POWER_FAIL)
        | flag(listing.offline, OFFLINE);
    [listing.lds, listing.las, listing.lps, flags]
}

pub(crate) fn reported(report: Report) -> (char, u32) {
    (report.phase.letter(), report.requests)
}

fn ending(res: Result<Answer, Refusal>) -> Collected {
    match res {
        Ok(answer) => match answer.result {
            Ok(nibble) => Collected::Nibble(nibble.get()),
            Err(unanswered) => match unanswered {
                Unanswered::NotActive => Collected::NotActive(unanswered.number()),
                Unanswered::Silent => Collected::Silent(unanswered.number()),
                Unanswered::Disturbed => Collected::Disturbed(unanswered.number()),
            },
        },
        Err(refusal) => Collected::Refused(refusal.number()),
    }
}

/// The number of a result.
pub(crate) fn number<T: Drop>(res: Result<T, Refusal>) -> u16 {
    match res {
        Ok(_) => OK,
        Err(refusal) => refusal.number(),
    }
}

fn nibble_or_number(res: Result<Nibble, Refusal>) -> u16 {
    match res {
        Ok(nibble) => u16::from(nibble.get()),
        Err(refusal) => refusal.number(),
    }
}

fn same(rt: &impl Abort, came: u16, expected: u16, row: u32) -> u16 {
    assert_eq!(rt; came, expected, "row {row}");
    came
}

/// All that a call may change.
#[derive(Clone, Copy, PartialEq, Debug)]
struct State {
    lists: [u32; 4],
    waiting: usize,
    uncollected: usize,
    entries: [(u32, u8); ADDRESSES],
    words: [u32; IMAGE_WORDS],
}

/// The codes, parameters and data of an entry in one word, and its misses.
fn packed(entry: Entry) -> (u32, u8) {
    let mut word = 0;
    for nibble in [
        entry.cdi.io,
        entry.cdi.id,
        entry.pcd.io,
        entry.pcd.id,
        entry.pi,
        entry.pp,
        entry.idi,
        entry.odi,
    ] {
        word = word << 4 | u32::from(nibble);
    }
    (word, entry.misses)
}

/// A master, and the words of the rack that it runs on.
#[derive(Drop)]
struct Session<'a> {
    words: [u32; IMAGE_WORDS],
    master: Master<'a>,
}

impl<'a> Session<'a> {
    fn state(&self) -> State {
        State {
            lists: listed(self.master.read_lists()),
            waiting: self.master.waiting(),
            uncollected: self.master.uncollected(),
            entries: array::from_fn(|a| packed(
                self.master.record().rows.entry(Address::low(a as u32)),
            )),
            words: self.words,
        }
    }

    fn cycle(&mut self) -> Result<(char, u32), Refusal> {
        let mut rack = ImageRack::open(&mut self.words)?;
        Ok(reported(self.master.cycle(&mut rack)))
    }

    /// Makes the call of a row and checks what it came to; the number, 0 where it has none.
    fn call(&mut self, rt: &impl Abort, row: Row, n: u32) -> Result<u16, Fail> {
        match row {
            Row::Parameter(address, value, expected) => {
                let placed = self.master.place_parameter(address, value);
                Ok(same(rt, number(placed), expected, n))
            }
            Row::Reset(address, expected) => {
                let placed = self.master.place_reset(address);
                Ok(same(rt, number(placed), expected, n))
            }
            Row::Collect(expected) => {
                let came = ending(self.master.collect());
                assert_eq!(rt; came, expected, "row {n}");
                match came {
                    Collected::Refused(number) => Ok(number),
                    _ => Ok(OK),
                }
            }
            Row::Outputs(address, outputs, expected) => {
                let written = self.master.write_outputs(address, outputs);
                Ok(same(rt, number(written), expected, n))
            }
            Row::Inputs(address, expected) => {
                let read = self.master.read_inputs(address);
                Ok(same(rt, nibble_or_number(read), expected, n))
            }
            Row::Mode(mode, expected) => {
                let set = self.master.set_mode(mode);
                Ok(same(rt, number(set), expected, n))
            }
            Row::Edit(change, expected) => {
                let edited = self.master.edit(change);
                Ok(same(rt, number(edited), expected, n))
            }
            Row::Through(change, expected) => {
                let edited = self.master.projection().edit(change);
                Ok(same(rt, number(edited), expected, n))
            }
            Row::Cycle(letter, requests) => match self.cycle() {
                Ok(came) => {
                    assert_eq!(rt; came, (letter, requests), "row {n}");
                    Ok(OK)
                }
                Err(_) => Err(Fail::new("bad image")),
            },
            Row::Lists(lds, las, lps, flags) => {
                assert_eq!(rt;
                    listed(self.master.read_lists()),
                    [lds, las, lps, flags],
                    "row {n}"
                );
                Ok(OK)
            }
            Row::Offline(offline) => {
                self.master.set_offline(offline);
                Ok(OK)
            }
            Row::Plug(at, word) => {
                assert!(rt; at < STATIONS, "row {n}");
                self.words[at] = word;
                Ok(OK)
            }
            Row::Power(up) => {
                self.words[STATIONS] = power_word(up);
                Ok(OK)
            }
            Row::Word(at, word) => {
                assert!(rt; at < STATIONS, "row {n}");
                assert_eq!(rt; self.words[at], word, "row {n}");
                Ok(OK)
            }
        }
    }

    /// Follows a row, the nth, and sees that a refusal changes nothing.
    fn follow(&mut self, rt: &impl Abort, row: Row, n: u32) -> Result<(), Fail> {
        let before = self.state();
        if self.call(rt, row, n)? > 15 {
            assert_eq!(rt; self.state(), before, "row {n}");
        }
        Ok(())
    }
}

/// What the slots of an empty queue hold.
pub(crate) fn any_answer() -> Answer {
    Answer {
        order: Order::Reset(ModuleAddress::nth(0)),
        result: Err(Unanswered::NotActive),
    }
}

/// Follows a script from its start on.
pub(crate) fn follow(rt: &impl Abort, start: Start, rows: &[Row]) -> Result<(), Fail> {
    let mut order_slots = [any_answer().order; ROOM];
    let mut answer_slots = [any_answer(); ROOM];
    assert!(rt; start.order_room <= ROOM && start.answer_room <= ROOM);
    let mut session = Session {
        words: start.words,
        master: Master::new(
            &mut order_slots[0..start.order_room],
            &mut answer_slots[0..start.answer_room],
        ),
    };
    for _ in 0..start.cycles {
        let _ = session.cycle();
    }
    session.follow(rt, Row::Mode(start.mode, OK), 0)?;
    for (n, row) in (1..).zip(rows) {
        session.follow(rt, *row, n)?;
    }
    Ok(())
}
