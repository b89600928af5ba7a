ghost use Rattle.std.specs.Prelude.{◌≡◌, ◌+◌, ◌<◌, ◌++◌, length, take, slice_index};
ghost use Rattle.records.specs.Rows.{new_row};
ghost use Rattle.records.specs.Records.{rows, with_entry};
ghost use Rattle.orders.specs.Orders.{ordered, ending, told};
ghost use Rattle.master.specs.Masters.{state_of, shown};
ghost use Rattle.promise.specs.Outcomes.{collected};
ghost use Rattle.runs.specs.Outcomes.{came};
ghost use Rattle.exports.specs.Logging.{count_word, phase_number, mode_number, list_words, order_kind, order_value, ending_kind, ending_value, outcome_words, status_words, row_word, row_words, logged};

use control::control::{Listing, Phase};
use master::master::Master;
use orders::order::{Answer, Order, Unanswered};
use records::entry::Entry;
use records::record::Mode;
use records::rows::{ADDRESSES, Rows};
use runs::call::{Given, Outcome};
use std::array;
use values::address::Address;
use values::nibble::Nibble;

/// How many words are logged for one call.
pub(crate) const LOG_WORDS: usize = 111;

/// How many words say what a call came to, and how many the queues and the lists.
const OUTCOME_WORDS: usize = 7;

const STATUS_WORDS: usize = 7;

/// Two for each address.
const ROW_WORDS: usize = 2 * ADDRESSES;

fn phase_number(phase: Phase) -> u32
    ensures { result ≡ phase_number phase }
{
    match phase {
        Phase::Offline => 0,
        Phase::Detection => 1,
        Phase::Activation => 2,
        Phase::Normal => 3,
    }
}

fn mode_number(mode: Mode) -> u32
    ensures { result ≡ mode_number mode }
{
    match mode {
        Mode::Configuration => 0,
        Mode::Protected => 1,
    }
}

/// A count in one word.
fn count_word(n: usize) -> u32
    ensures { result ≡ count_word n }
{
    n.min(u32::MAX as usize) as u32
}

/// LDS, LAS, LPS and the flags.
fn list_words(read: &Listing) -> [u32; 4]
    ensures { result ≡ list_words (shown read.now) }
{
    let flags = u32::from(read.config_ok)
        + u32::from(read.address_zero) * 2
        + u32::from(read.configuration_active) * 4
        + u32::from(read.normal_operation_active) * 8
        + u32::from(read.power_fail) * 16
        + u32::from(read.offline) * 32;
    [read.lds, read.las, read.lps, flags]
}

/// An order's kind and value.
fn order_words(order: Order) -> (u32, u32)
    ensures kind { result.0 ≡ order_kind (ordered order).asking }
    ensures value { result.1 ≡ order_value (ordered order).asking }
{
    match order {
        Order::Parameter(_, value) => (0, u32::from(value)),
        Order::Reset(_) => (1, 0),
    }
}

/// How an order ended, and the nibble or the number that the controller is given.
fn ending_words(how: Result<Nibble, Unanswered>) -> (u32, u32)
    ensures kind { result.0 ≡ ending_kind (ending how) }
    ensures value { result.1 ≡ ending_value (ending how) }
{
    match how {
        Ok(nibble) => (0, u32::from(nibble)),
        Err(why) => {
            let kind = match why {
                Unanswered::NotActive => 1,
                Unanswered::Silent => 2,
                Unanswered::Disturbed => 3,
            };
            (kind, u32::from(why.number()))
        }
    }
}

fn answer_words(answer: Answer) -> [u32; OUTCOME_WORDS]
    ensures { result ≡ outcome_words (collected (told answer)) }
{
    let address = u32::from(answer.order.address());
    let (kind, value) = order_words(answer.order);
    let (ended, came) = ending_words(answer.result);
    [2, kind, address, value, ended, came, 0]
}

/// What a call came to.
fn outcome_words(outcome: Outcome) -> [u32; OUTCOME_WORDS]
    ensures { result ≡ outcome_words (came outcome) }
{
    match outcome {
        Ok(Given::Nothing) => [0; OUTCOME_WORDS],
        Ok(Given::Ran(report)) => [1, phase_number(report.phase), report.requests, 0, 0, 0, 0],
        Ok(Given::Collected(answer)) => answer_words(answer),
        Ok(Given::Inputs(nibble)) => [3, u32::from(nibble), 0, 0, 0, 0, 0],
        Ok(Given::Lists(read)) => {
            let [lds, las, lps, flags] = list_words(&read);
            [4, lds, las, lps, flags, 0, 0]
        }
        Ok(Given::Projected(accepted)) => [5, count_word(accepted), 0, 0, 0, 0, 0],
        Err(refusal) => [u32::from(refusal.number()), 0, 0, 0, 0, 0, 0],
    }
}

/// What waits, the mode, and the lists.
fn status_words(master: &Master<'_>) -> [u32; STATUS_WORDS]
    ensures { result ≡ status_words (state_of master.now) }
{
    let waiting = count_word(master.waiting());
    let uncollected = count_word(master.uncollected());
    let mode = mode_number(master.record().mode());
    let [lds, las, lps, flags] = list_words(&master.read_lists());
    [waiting, uncollected, mode, lds, las, lps, flags]
}

/// The nibbles of an address in one word, CDI first.
fn row_word(entry: Entry) -> u32
    ensures { result ≡ row_word (with_entry entry new_row) }
{
    (u32::from(entry.cdi.io) << 28)
        + (u32::from(entry.cdi.id) << 24)
        + (u32::from(entry.pcd.io) << 20)
        + (u32::from(entry.pcd.id) << 16)
        + (u32::from(entry.pi) << 12)
        + (u32::from(entry.pp) << 8)
        + (u32::from(entry.idi) << 4)
        + u32::from(entry.odi)
}

/// Word `k` of the rows.
fn word_of_rows(table: &Rows, k: usize) -> u32
    requires { k < 64 }
    ensures { result ≡ slice_index (row_words (rows table.now)) k }
{
    let entry = table.entry(Address::low((k / 2) as u32));
    if k % 2 == 0 {
        row_word(entry)
    } else {
        u32::from(entry.misses)
    }
}

fn row_words(table: &Rows) -> [u32; ROW_WORDS]
    ensures { result ≡ row_words (rows table.now) }
{
    array::from_fn(|k| word_of_rows(table, k))
}

/// Writes words behind those that are written already; where the next go.
fn write(log: &mut [u32; LOG_WORDS], at: usize, words: &[u32]) -> usize
    requires { at + length words.now < 112 }
    ensures long { length log.new ≡ 111 }
    ensures end { result ≡ at + length words.now }
    ensures written { take result log.new ≡ take at log.old ++ words.now }
{
    let end = at + words.len();
    log[at..end].copy_from_slice(words);
    end
}

/// What is logged for a call.
pub(crate) fn logged(outcome: Outcome, master: &Master<'_>, image: &[u32]) -> [u32; LOG_WORDS]
    requires { length image.now ≡ 33 }
    ensures { result ≡ logged (came outcome) (state_of master.now) image.now }
{
    let mut log = [0; LOG_WORDS];
    let at = write(&mut log, 0, &outcome_words(outcome));
    let at = write(&mut log, at, &status_words(master));
    let at = write(&mut log, at, &row_words(&master.record().rows));
    write(&mut log, at, image);
    log
}
