//! Reads an image from standard input and lists the first four cycles of a new master on it: cycle, first letter of its phase, LDS and LAS
//! after it, requests.
#![tactic(auto)]

use first_cycles::first_cycles::{CALLS, on_image};
use runs::call::{Given, Outcome};
use stations::bytes::IMAGE_BYTES;
use std::io;
use std::io::Read;

/// Prints one cycle, from its report and from the reading of the lists after it.
fn print_cycle(rt: &impl Print, number: usize, pair: &[Outcome]) -> io::Result<()> {
    let [Ok(Given::Ran(report)), Ok(Given::Lists(lists))] = pair else {
        return Ok(());
    };
    let letter = report.phase.letter();
    let requests = report.requests;
    let lds = lists.lds;
    let las = lists.las;
    println!(rt; "{number} {letter} {lds:08X} {las:08X} {requests}")
}

fn list(rt: &impl Print, log: [Outcome; CALLS]) -> io::Result<()> {
    for (number, pair) in (1..).zip(log.chunks(2)) {
        print_cycle(rt, number, pair)?;
    }
    Ok(())
}

fn main(rt: HostRuntime) -> io::Result<()> {
    // One byte more than an image has, so that a longer input shows.
    let mut bytes = [0; IMAGE_BYTES + 1];
    let mut free = &mut bytes[..];
    io::copy(&mut rt.stdin().take(IMAGE_BYTES as u64 + 1), &mut free)?;
    let count = (IMAGE_BYTES + 1).saturating_sub(free.len());
    match on_image(&bytes[..count]) {
        Ok(log) => list(&rt, log),
        Err(refusal) => println!(rt; "{refusal}"),
    }
}
