//! Prints what the code makes of the worked examples, and how many words of 14 bits are taken and refused.
#![tactic(auto)]

use lines::line::Line;
use lines::repeater::Repeater;
use racks::bench::BenchRack;
use stations::image::IMAGE_WORDS;
use stations::station::Station;
use std::io;
use telegrams::request::{Reply, Request};
use telegrams::word::{decode_request, encode_reply, encode_request};
use values::nibble::Nibble;
use values::refusal::{Cause, Refusal};

fn show_word(rt: &impl Print, request: Result<Request, Refusal>) -> io::Result<()> {
    match request {
        Ok(request) => rt.println(encode_request(request)),
        Err(refusal) => show_refusal(rt, refusal),
    }
}

/// 0 where there is none.
fn cause_number(cause: Option<Cause>) -> u8 {
    cause.map_or(0, Cause::number)
}

fn show_refusal(rt: &impl Print, refusal: Refusal) -> io::Result<()> {
    let cause = cause_number(refusal.cause());
    println!(rt; "{refusal} cause {cause}")
}

fn show_decoded(rt: &impl Print, word: u32) -> io::Result<()> {
    match decode_request(word) {
        Ok(request) => println!(rt; "a request to {}", request.address().get()),
        Err(refusal) => show_refusal(rt, refusal),
    }
}

fn show_reply(rt: &impl Print, reply: Reply) -> io::Result<()> {
    match reply {
        Reply::Answer(nibble) => println!(rt; "{}", nibble.get()),
        Reply::Silence => rt.println("silence"),
        Reply::Disturbed => rt.println("disturbed"),
    }
}

/// A station's word after a request, and the reply.
fn show_heard(rt: &impl Print, word: u32, request: Result<Request, Refusal>) -> io::Result<()> {
    let mut station = Station::from_word(word);
    match request {
        Ok(request) => {
            let reply = station.hear(request);
            let after = station.word();
            println!(rt; "{after:08X}")?;
            show_reply(rt, reply)
        }
        Err(refusal) => show_refusal(rt, refusal),
    }
}

/// The first two replies of the module at address 3.
fn show_replies(rt: &impl Print, line: &mut impl Line) -> io::Result<()> {
    match Request::read_io(3) {
        Ok(request) => {
            show_reply(rt, line.carry(request))?;
            show_reply(rt, line.carry(request))
        }
        Err(refusal) => show_refusal(rt, refusal),
    }
}

/// A module with a disturbance count of 3 under one repeater and under two.
fn show_repeaters(rt: &impl Print) -> io::Result<()> {
    let mut words = [0u32; IMAGE_WORDS];
    words[3] = 0x4709_FF30;
    words[32] = 0xC000_0001;
    match BenchRack::open(&words) {
        Ok(rack) => show_replies(rt, &mut Repeater::over(rack))?,
        Err(refusal) => show_refusal(rt, refusal)?,
    }
    match BenchRack::open(&words) {
        Ok(rack) => show_replies(rt, &mut Repeater::over(Repeater::over(rack))),
        Err(refusal) => show_refusal(rt, refusal),
    }
}

/// Why a word is no request; `None` where it is one.
fn word_cause(word: u32) -> Option<Cause> {
    decode_request(word).err().and_then(Refusal::cause)
}

/// How many of the words of 14 bits are refused for a cause; `None` counts the requests.
fn words_with(cause: Option<Cause>) -> usize {
    (0..16384).filter(|&word| word_cause(word) == cause).count()
}

fn main(rt: HostRuntime) -> io::Result<()> {
    show_word(&rt, Request::data_exchange(3, 15))?;
    show_word(&rt, Request::read_io(0))?;
    show_word(&rt, Request::read_id(3))?;
    show_word(&rt, Request::write_parameter(31, 5))?;
    println!(rt;
        "{} {}",
        encode_reply(Nibble::low(7)),
        encode_reply(Nibble::low(0))
    )?;
    show_decoded(&rt, 441)?;
    show_decoded(&rt, 444)?;
    show_decoded(&rt, 4171)?;
    show_heard(&rt, 0x4709_FF00, Request::write_parameter(3, 5))?;
    show_heard(&rt, 0x4709_F580, Request::data_exchange(3, 6))?;
    show_heard(&rt, 0x4709_F583, Request::data_exchange(3, 6))?;
    show_repeaters(&rt)?;
    for cause in [
        None,
        Some(Cause::TooWide),
        Some(Cause::StartBit),
        Some(Cause::EndBit),
        Some(Cause::Parity),
        Some(Cause::NoRequest),
    ] {
        println!(rt; "{}: {}", cause_number(cause), words_with(cause))?;
    }
    Ok(())
}
