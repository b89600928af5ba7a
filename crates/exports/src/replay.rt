ghost use Rattle.std.specs.Prelude.{◌≡◌, true, min, length, MatchOption};
ghost use Rattle.stations.specs.Images.{good_image};
ghost use Rattle.master.specs.Masters.{state_of};
ghost use Rattle.exports.specs.Replay.{altered, repeaters_of, NoNext, Next, replay, Replayed};

use super::logged::{LOG_WORDS, logged};
use super::on_line::{LineKind, on_line};
use super::script::{CALL_WORDS, EDITS, Entry};
use master::master::Master;
use orders::order::{Answer, Order, Unanswered};
use records::edit::Edit;
use stations::image::test_image;
use values::module_address::ModuleAddress;

/// How many places either queue has at most.
const ROOM: usize = 8;

fn room(asked: u32) -> usize
    ensures { result ≡ min asked 8 }
{
    (asked as usize).min(ROOM)
}

/// Alters the line where the image stays good with that.
fn alter(words: &mut [u32], entry: &Entry)
    ensures { words.new ≡ altered entry.now words.old }
{
    let place = entry.place as usize;
    let Some(&former) = words.get(place) else {
        return;
    };
    words[place] = entry.word;
    if test_image(words).is_err() {
        words[place] = former;
    }
}

/// Makes the next call of a script and logs it. What is behind it in the script, or nothing where no call was made.
fn replay_next<'a>(
    kind: LineKind,
    script: &'a [u32],
    words: &mut [u32],
    master: &mut Master<'_>,
    place: &mut [u32],
) -> Option<&'a [u32]>
    requires image { good_image words.old ≡ true }
    requires place { length place.old ≡ 111 }
    ensures { MatchOption result
        (NoNext script.now words.old place.old words.new place.new)
        (λ rest. Next (repeaters_of kind) script.now words.old (state_of master.old)
        place.new rest.now words.new (state_of master.new)) }
{
    let (first, behind) = script.split_first_chunk::<CALL_WORDS>()?;
    let entry = Entry::from_words(first);
    let mut edits = [Edit::TakeOver; EDITS];
    let (count, rest) = entry.read_edits(behind, &mut edits);
    alter(words, &entry);
    let call = entry.call(&edits[..count]);
    let outcome = on_line(kind, call, words, master).ok()?;
    place.copy_from_slice(&logged(outcome, master, words));
    Some(rest)
}

/// Replays a script on a new master, and logs each call; how many were made.
fn replay(
    kind: LineKind,
    order_room: u32,
    answer_room: u32,
    words: &mut [u32],
    script: &[u32],
    log: &mut [u32],
) -> usize
    ensures { Replayed (replay (repeaters_of kind) order_room answer_room
        words.old script.now (length log.old))
        log.old result words.new log.new }
{
    let order = Order::Reset(ModuleAddress::nth(0));
    let answer = Answer {
        order,
        result: Err(Unanswered::NotActive),
    };
    let mut order_slots = [order; ROOM];
    let mut answer_slots = [answer; ROOM];
    let mut master = Master::new(
        &mut order_slots[..room(order_room)],
        &mut answer_slots[..room(answer_room)],
    );
    if test_image(words).is_err() {
        return 0;
    }
    let mut rest = script;
    let places = log.len() / LOG_WORDS;
    for made in 0..places {
        let start = made * LOG_WORDS;
        let place = &mut log[start..start + LOG_WORDS];
        let next = replay_next(kind, rest, words, &mut master, place);
        let Some(behind) = next else {
            return made;
        };
        rest = behind;
    }
    places
}

/// Replays a script on a bench rack under repeaters.
#[unsafe(no_mangle)]
pub extern "C" fn asi_replay(
    repeaters: u32,
    order_room: u32,
    answer_room: u32,
    words: &mut [u32],
    script: &[u32],
    log: &mut [u32],
) -> usize
    ensures { Replayed (replay (min repeaters 3) order_room answer_room
        words.old script.now (length log.old))
        log.old result words.new log.new }
{
    let kind = LineKind::Bench { repeaters };
    replay(kind, order_room, answer_room, words, script, log)
}

/// Replays a script on an image rack over the words.
#[unsafe(no_mangle)]
pub extern "C" fn asi_replay_image(
    order_room: u32,
    answer_room: u32,
    words: &mut [u32],
    script: &[u32],
    log: &mut [u32],
) -> usize
    ensures { Replayed (replay 0 order_room answer_room
        words.old script.now (length log.old))
        log.old result words.new log.new }
{
    replay(LineKind::Image, order_room, answer_room, words, script, log)
}
