//! Drives a master by hand, request by request, as firmware does that has a wire of its own, and prints each request with its reply and the
//! table of the program `listing`: each cycle, the first letter of its phase, LDS and LAS after it, requests.
#![tactic(auto)]

mod wire;

ghost use Rattle.std.specs.Prelude.{◌≡◌, ◌↔◌, ℕ, IsNone, IsSomeAnd};
ghost use Rattle.telegrams.specs.Requests.{heard, silence, nibble};
ghost use Rattle.telegrams.specs.Words.{ReplyOf};

use control::cycle::Report;
use master::master::Master;
use std::io;
use telegrams::request::{Reply, Request};
use telegrams::word::{decode_reply, encode_request};
use wire::Wire;

const CYCLES: u32 = 4;

/// The power of this wire never fails.
const POWERED: bool = true;

/// What the master hears: no word is silence, and a word that is no good reply is disturbed.
fn reply_of(word: Option<u32>) -> Reply
    ensures silence { (heard result ≡ silence) ↔ IsNone word }
    ensures answer { (n : ℕ) → (heard result ≡ nibble n) ↔ IsSomeAnd word (ReplyOf n) }
{
    match word.map(decode_reply) {
        None => Reply::Silence,
        Some(Ok(nibble)) => Reply::Answer(nibble),
        Some(Err(_)) => Reply::Disturbed,
    }
}

/// Runs one cycle: the master says what to send, the wire carries it, and the master hears what came back.
fn run_cycle(rt: &impl Print, master: &mut Master<'_>, wire: &mut Wire) -> io::Result<Report> {
    let mut cycle = master.begin(POWERED);
    while let Some(request) = cycle.next() {
        let reply = reply_of(wire.carry(encode_request(request)));
        print_exchange(rt, request, reply)?;
        cycle.hear(reply);
    }
    Ok(cycle.report())
}

fn print_request(rt: &impl Print, request: Request) -> io::Result<()> {
    let address = request.address().get();
    match request {
        Request::DataExchange(_, outputs) => {
            print!(rt; "Data_Exchange({address}, {})", outputs.get())
        }
        Request::WriteParameter(_, parameter) => {
            print!(rt; "Write_Parameter({address}, {})", parameter.get())
        }
        Request::ReadIo(_) => print!(rt; "Read_IO({address})"),
        Request::ReadId(_) => print!(rt; "Read_ID({address})"),
        Request::Reset(_) => print!(rt; "Reset({address})"),
    }
}

fn print_reply(rt: &impl Print, reply: Reply) -> io::Result<()> {
    match reply {
        Reply::Answer(nibble) => rt.print(nibble.get()),
        Reply::Silence => rt.print("silence"),
        Reply::Disturbed => rt.print("disturbed"),
    }
}

fn print_exchange(rt: &impl Print, request: Request, reply: Reply) -> io::Result<()> {
    rt.print("    ")?;
    print_request(rt, request)?;
    rt.print(": ")?;
    print_reply(rt, reply)?;
    rt.println("")
}

fn print_cycle(
    rt: &impl Print,
    number: u32,
    report: Report,
    master: &Master<'_>,
) -> io::Result<()> {
    let letter = report.phase.letter();
    let requests = report.requests;
    let lists = master.read_lists();
    let lds = lists.lds;
    let las = lists.las;
    println!(rt; "{number} {letter} {lds:08X} {las:08X} {requests}")
}

fn main(rt: HostRuntime) -> io::Result<()> {
    // No order is placed, so the queues need no places.
    let mut master = Master::new(&mut [], &mut []);
    let mut wire = Wire::new();
    for number in 1..=CYCLES {
        let report = run_cycle(&rt, &mut master, &mut wire)?;
        print_cycle(&rt, number, report, &master)?;
    }
    Ok(())
}
