ghost use Rattle.std.specs.Prelude.{◌≡◌, ℕ, ◌+◌, ◌*◌, ◌/◌, ◌%◌, ◌<◌, ◌≤◌};
ghost use Rattle.telegrams.specs.Requests.{sent};
ghost use Rattle.telegrams.specs.Words.{framed, payload_of, RequestDecoded, ReplyDecoded, OnlyWordOf, OnlyReplyOf, PayloadTaken, RequestIn};

use super::request::Request;
use values::nibble::Nibble;
use values::refusal::{Cause, Refusal};

/// A payload between its start bit, parity bit and end bit.
fn frame(payload: u32) -> u32
    requires { payload < 2048 }
    ensures { result ≡ framed payload }
{
    4 * payload + 2 * (payload.count_ones() % 2) + 1
}

fn payload(request: Request) -> u32
    ensures is { result ≡ payload_of (sent request) }
    ensures fits { result < 2048 }
{
    let (control, information) = match request {
        Request::DataExchange(_, n) => (0, u32::from(n)),
        Request::WriteParameter(_, n) => (0, 16 + u32::from(n)),
        Request::ReadIo(_) => (1, 16),
        Request::ReadId(_) => (1, 17),
        Request::Reset(_) => (1, 28),
    };
    1024 * control + 32 * u32::from(request.address()) + information
}

/// The word of 14 bits that carries a request.
pub fn encode_request(request: Request) -> u32
    ensures { OnlyWordOf (sent request) result }
{
    frame(payload(request))
}

/// The word of 7 bits that carries a reply's nibble.
pub fn encode_reply(nibble: Nibble) -> u32
    ensures { OnlyReplyOf nibble.value result }
{
    frame(u32::from(nibble))
}

// What the start bit counts in a request and in a reply.
const REQUEST_START: u32 = 8192;

const REPLY_START: u32 = 64;

/// The payload of a word whose start bit counts `start`, or what is wrong with its frame.
fn unframe(word: u32, start: u32) -> Result<u32, Cause>
    requires { start ≤ 8192 }
    ensures { PayloadTaken start word result }
{
    if word >= 2 * start {
        Err(Cause::TooWide)
    } else if word >= start {
        Err(Cause::StartBit)
    } else if word % 2 == 0 {
        Err(Cause::EndBit)
    } else if (word / 2).count_ones() % 2 == 1 {
        Err(Cause::Parity)
    } else {
        Ok(word / 4)
    }
}

/// The request that a payload stands for.
fn request_in(payload: u32) -> Result<Request, Refusal>
    requires { payload < 2048 }
    ensures { RequestIn payload result }
{
    match (payload / 1024, payload / 32 % 32, payload % 32) {
        (0, a @ 1..=31, n @ 0..=15) => Request::data_exchange(a, n),
        (0, a, i) if a > 0 => Request::write_parameter(a, i - 16),
        (1, a, 16) => Request::read_io(a),
        (1, a, 17) => Request::read_id(a),
        (1, a, 28) => Request::reset(a),
        _ => Err(Refusal::from(Cause::NoRequest)),
    }
}

/// The request whose word this is.
pub fn decode_request(word: u32) -> Result<Request, Refusal>
    ensures { RequestDecoded word result }
{
    request_in(unframe(word, REQUEST_START)?)
}

/// The nibble whose word this is.
pub fn decode_reply(word: u32) -> Result<Nibble, Refusal>
    ensures { ReplyDecoded word result }
{
    let payload = unframe(word, REPLY_START)?;
    Ok(Nibble::low(payload))
}
