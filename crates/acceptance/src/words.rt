use crate::script::number;
use std::test::*;
use telegrams::request::Request;
use telegrams::word::{decode_reply, decode_request};
use values::refusal::Refusal;

/// The number and the cause of a result.
fn numbers<T: Drop>(res: Result<T, Refusal>) -> (u16, u8) {
    match res {
        Ok(_) => (0, 0),
        Err(refusal) => (
            refusal.number(),
            refusal.cause().map_or(0, |cause| cause.number()),
        ),
    }
}

/// The number and the cause that a word is to come to, by its cause.
fn expected(cause: u8) -> (u16, u8) {
    if cause == 0 { (0, 0) } else { (0x8314, cause) }
}

/// For each cause, words that have later causes too, and one that has this cause alone.
#[test]
fn request_words(rt: HostRuntime) -> Result<(), Fail> {
    for (word, cause) in [
        (0xFFFF_FFFC, 1),
        (16384, 1),
        (16829, 1),
        (16382, 2),
        (8192, 2),
        (8637, 2),
        (4168, 3),
        (444, 3),
        (4169, 4),
        (441, 4),
        (4171, 5),
        (8191, 5),
        (1, 5),
        (67, 5),
        (445, 0),
        (4053, 0),
        (4161, 0),
        (4551, 0),
    ] {
        assert_eq!(rt; numbers(decode_request(word)), expected(cause), "{}", word);
    }
    Ok(())
}

#[test]
fn reply_words(rt: HostRuntime) -> Result<(), Fail> {
    for (word, cause) in [
        (0xFFFF_FFFC, 1),
        (128, 1),
        (159, 1),
        (124, 2),
        (64, 2),
        (95, 2),
        (28, 3),
        (30, 3),
        (29, 4),
        (63, 4),
        (31, 0),
        (1, 0),
        (61, 0),
    ] {
        assert_eq!(rt; numbers(decode_reply(word)), expected(cause), "{}", word);
    }
    Ok(())
}

#[test]
fn request_numbers(rt: HostRuntime) -> Result<(), Fail> {
    for (address, nibble, expected) in [
        (0, 15, 0x8381),
        (32, 15, 0x8381),
        (0xFFFF_FFFF, 15, 0x8381),
        (0, 16, 0x8381),
        (32, 16, 0x8381),
        (1, 16, 0x8310),
        (31, 0xFFFF_FFFF, 0x8310),
        (1, 15, 0),
        (31, 15, 0),
    ] {
        let numbers = [
            number(Request::data_exchange(address, nibble)),
            number(Request::write_parameter(address, nibble)),
        ];
        assert_eq!(rt; numbers, [expected; 2], "{}", address);
    }
    for (address, expected) in [(0, 0), (31, 0), (32, 0x8381), (0xFFFF_FFFF, 0x8381)] {
        let numbers = [
            number(Request::read_io(address)),
            number(Request::read_id(address)),
            number(Request::reset(address)),
        ];
        assert_eq!(rt; numbers, [expected; 3], "{}", address);
    }
    Ok(())
}
