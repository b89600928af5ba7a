ghost use Rattle.std.specs.Prelude.{◌≡◌, ◌+◌, ◌*◌};
ghost use Rattle.telegrams.specs.Requests.{sent};
ghost use Rattle.values.specs.Refusals.{numbered, caused, outcome};
ghost use Rattle.exports.specs.Words.{request_of, Encoded, ReplyEncoded, packed, RequestGiven, ReplyGiven};

use telegrams::request::Request;
use telegrams::word::{decode_reply, decode_request, encode_reply, encode_request};
use values::nibble::Nibble;
use values::refusal::{Cause, Refusal};

fn request(kind: u32, address: u32, value: u32) -> Result<Request, Refusal>
    ensures { outcome sent result ≡ request_of kind address value }
{
    match kind {
        0 => Request::data_exchange(address, value),
        1 => Request::write_parameter(address, value),
        2 => Request::read_io(address),
        3 => Request::read_id(address),
        _ => Request::reset(address),
    }
}

/// The kind, the address and the nibble of a request in one word.
fn packed(request: Request) -> u32
    ensures { result ≡ packed (sent request) }
{
    let (kind, value) = match request {
        Request::DataExchange(_, nibble) => (0, u32::from(nibble)),
        Request::WriteParameter(_, nibble) => (1, u32::from(nibble)),
        Request::ReadIo(_) => (2, 0),
        Request::ReadId(_) => (3, 0),
        Request::Reset(_) => (4, 0),
    };
    65536 * kind + 256 * u32::from(request.address()) + value
}

/// A refused word: the number of the refusal and its cause.
fn refused(refusal: Refusal) -> u32
    ensures { result ≡ 65536 * numbered refusal + caused refusal }
{
    let cause = refusal.cause().map_or(0, Cause::number);
    65536 * u32::from(refusal.number()) + u32::from(cause)
}

#[unsafe(no_mangle)]
pub extern "C" fn asi_encode_request(kind: u32, address: u32, value: u32) -> u32
    ensures { Encoded (request_of kind address value) result }
{
    match request(kind, address, value) {
        Ok(request) => encode_request(request),
        Err(refusal) => u32::from(refusal.number()),
    }
}

#[unsafe(no_mangle)]
pub extern "C" fn asi_decode_request(word: u32) -> u32
    ensures { RequestGiven word result }
{
    match decode_request(word) {
        Ok(request) => packed(request),
        Err(refusal) => refused(refusal),
    }
}

#[unsafe(no_mangle)]
pub extern "C" fn asi_encode_reply(value: u32) -> u32
    ensures { ReplyEncoded value result }
{
    match Nibble::try_from(value) {
        Ok(nibble) => encode_reply(nibble),
        Err(refusal) => u32::from(refusal.number()),
    }
}

#[unsafe(no_mangle)]
pub extern "C" fn asi_decode_reply(word: u32) -> u32
    ensures { ReplyGiven word result }
{
    match decode_reply(word) {
        Ok(nibble) => u32::from(nibble),
        Err(refusal) => refused(refusal),
    }
}
