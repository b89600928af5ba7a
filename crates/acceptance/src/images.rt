use crate::script::{MODULE, image, number};
use master::master::Master;
use racks::bench::BenchRack;
use racks::image_rack::ImageRack;
use racks::rack::Rack;
use racks::trial::{on_bench, on_image, under_repeater};
use runs::call::{Call, Given};
use runs::on_image::run_on_image;
use stations::bytes::image_from_bytes;
use stations::image::{IMAGE_WORDS, POWER_UP, test_image};
use std::fmt::Debug;
use std::process::Abort;
use std::test::*;
use telegrams::request::Request;
use values::address::Address;

/// Every call that takes an image comes to the same number.
fn check_image<W: Debug + Drop>(rt: &impl Abort, what: W, words: &mut [u32], expected: u16) {
    let request = Request::ReadIo(Address::low(0));
    let numbers = [
        number(test_image(words)),
        number(BenchRack::open(words)),
        number(ImageRack::open(words)),
        number(on_bench(words, request)),
        number(on_image(words, request)),
        number(under_repeater(words, request)),
        number(run_on_image(words, &[], &mut Master::new(&mut [], &mut []), &mut [])),
    ];
    assert_eq!(rt; numbers, [expected; 7], "{what:?}");
}

#[test]
fn lengths(rt: HostRuntime) {
    check_image(&rt, "33 words", &mut image(&[]), 0);
    check_image(&rt, "no words", &mut [], 0x8313);
    let mut short = [0; 32];
    short[31] = POWER_UP;
    check_image(&rt, "32 words", &mut short, 0x8313);
    let mut long = [0; 34];
    long[32] = POWER_UP;
    check_image(&rt, "34 words", &mut long, 0x8313);
}

#[test]
fn station_and_power_words(rt: HostRuntime) {
    for (at, word, expected) in [
        (0, 0x4000_0000, 0),
        (31, 0x4FFF_FFFF, 0),
        (32, 0xC000_0000, 0),
        (0, 0x8000_0000, 0x8313),
        (31, 0x8709_FF00, 0x8313),
        (0, 0xC000_0001, 0x8313),
        (31, 0xC709_FF00, 0x8313),
        (3, 0x6709_FF00, 0x8313),
        (3, 0x5709_FF00, 0x8313),
        (3, 1, 0x8313),
        (3, 0x3FFF_FFFF, 0x8313),
        (32, 0, 0x8313),
        (32, 1, 0x8313),
        (32, 0xC000_0002, 0x8313),
        (32, 0x4000_0001, 0x8313),
        (32, 0xFFFF_FFFF, 0x8313),
    ] {
        check_image(&rt, (at, word), &mut image(&[(at, word)]), expected);
    }
}

#[test]
fn bytes(rt: HostRuntime) -> Result<(), Fail> {
    let mut bytes = [0; 133];
    bytes[12] = 0x47;
    bytes[13] = 0x09;
    bytes[14] = 0xFF;
    bytes[131] = 1;
    assert_eq!(rt; number(image_from_bytes(&bytes[0..0])), 0x8313);
    assert_eq!(rt; number(image_from_bytes(&bytes[0..131])), 0x8313);
    assert_eq!(rt; number(image_from_bytes(&bytes)), 0x8313);
    match image_from_bytes(&bytes[0..132]) {
        Ok(words) => {
            assert_eq!(rt; words[3], MODULE);
            assert_eq!(rt; words[32], 1);
            Ok(())
        }
        Err(_) => Err(Fail::new("132 bytes refused")),
    }
}

fn check_written<R: Rack>(
    rt: &impl Abort,
    rack: &R,
    words: [u32; IMAGE_WORDS],
) -> Result<(), Fail> {
    let mut short = [0; 32];
    assert_eq!(rt; number(rack.write_out(&mut short)), 0x8313);
    assert_eq!(rt; short, [0; 32]);
    let mut long = [0; 34];
    assert_eq!(rt; number(rack.write_out(&mut long)), 0x8313);
    assert_eq!(rt; long, [0; 34]);
    let mut written = [0; IMAGE_WORDS];
    assert_eq!(rt; number(rack.write_out(&mut written)), 0);
    assert_eq!(rt; written, words);
    Ok(())
}

#[test]
fn writing_out(rt: HostRuntime) -> Result<(), Fail> {
    let words = image(&[(3, MODULE)]);
    let mut held = words;
    match (BenchRack::open(&words), ImageRack::open(&mut held)) {
        (Ok(bench), Ok(rack)) => {
            check_written(&rt, &bench, words)?;
            check_written(&rt, &rack, words)
        }
        _ => Err(Fail::new("good image refused")),
    }
}

/// Words that are refused stay as they were, and the log too. Others are given back as the calls leave them: of three cycles the
/// first is of the offline phase, the second detects the module, and the third activates it, which sets its mark.
#[test]
fn running_on_words(rt: HostRuntime) {
    let script = [Call::Cycle; 3];
    let mut log = [Ok(Given::Nothing); 3];
    let mut words = image(&[(3, MODULE), (4, 1)]);
    let before = words;
    let mut master = Master::new(&mut [], &mut []);
    let refused = run_on_image(&mut words, &script, &mut master, &mut log);
    assert_eq!(rt; number(refused), 0x8313);
    assert_eq!(rt; words, before);
    assert!(rt; log == [Ok(Given::Nothing); 3]);
    words[4] = 0;
    let made = run_on_image(&mut words, &script, &mut master, &mut log);
    assert!(rt; made == Ok(3));
    assert_eq!(rt; words, image(&[(3, MODULE + 0x80)]));
}
