ghost use Rattle.std.specs.Prelude.{◌≡◌, true, min, MatchResult};
ghost use Rattle.stations.specs.Images.{good_image};
ghost use Rattle.lines.specs.Lines.{meaning};
ghost use Rattle.racks.specs.Racks.{line_in, station_at};
ghost use Rattle.master.specs.Masters.{state_of};
ghost use Rattle.runs.specs.Outcomes.{came};
ghost use Rattle.exports.specs.Replay.{repeaters_of, Through};

use lines::repeater::Repeater;
use master::master::Master;
use racks::bench::BenchRack;
use racks::image_rack::ImageRack;
use racks::rack::Rack;
use runs::call::{Call, Outcome};
use runs::perform::perform;
use values::refusal::Refusal;

/// Which line is made of an image: a bench rack under repeaters, of which more than three count as three, or an image rack.
#[derive(Clone, Copy)]
pub(crate) enum LineKind {
    Bench { repeaters: u32 },
    Image,
}

/// Makes a call on a bench rack under so many repeaters, and gives the rack back.
fn under_repeaters(
    repeaters: u32,
    mut bench: BenchRack,
    call: Call<'_>,
    master: &mut Master<'_>,
) -> (BenchRack, Outcome)
    ensures { Through (min repeaters 3) call.entry
        (meaning bench.powered (station_at bench.stations)) (state_of master.old)
        (came result.1)
        (meaning result.0.powered (station_at result.0.stations)) (state_of master.new) }
{
    match repeaters {
        0 => {
            let outcome = perform(call, &mut bench, master);
            (bench, outcome)
        }
        1 => {
            let mut line = Repeater::over(bench);
            let outcome = perform(call, &mut line, master);
            (line.into_below(), outcome)
        }
        2 => {
            let mut line = Repeater::over(Repeater::over(bench));
            let outcome = perform(call, &mut line, master);
            (line.into_below().into_below(), outcome)
        }
        _ => {
            let mut line = Repeater::over(Repeater::over(Repeater::over(bench)));
            let outcome = perform(call, &mut line, master);
            (line.into_below().into_below().into_below(), outcome)
        }
    }
}

/// Makes a call on a bench rack that is opened from the words and written out into them.
fn on_bench(
    repeaters: u32,
    call: Call<'_>,
    words: &mut [u32],
    master: &mut Master<'_>,
) -> Result<Outcome, Refusal>
    requires { good_image words.old ≡ true }
    ensures made { MatchResult result
        (λ y. Through (min repeaters 3) call.entry (line_in words.old) (state_of master.old)
        (came y) (line_in words.new) (state_of master.new))
        (λ e. ⊥) }
    ensures good { good_image words.new ≡ true }
{
    let (bench, outcome) = under_repeaters(repeaters, BenchRack::open(words)?, call, master);
    bench.write_out(words)?;
    Ok(outcome)
}

/// Makes a call on an image rack, which still holds the words that it was lent.
fn on_rack(rack: &mut ImageRack<'_>, call: Call<'_>, master: &mut Master<'_>) -> Outcome
    ensures made { Through 0 call.entry (line_in rack.old.words.now) (state_of master.old)
        (came result) (line_in rack.new.words.now) (state_of master.new) }
    ensures lender { rack.new.words.ghost_name ≡ rack.old.words.ghost_name }
    ensures good { good_image rack.new.words.now ≡ true }
{
    perform(call, rack, master)
}

/// Makes a call on an image rack over the words.
fn on_image(call: Call<'_>, words: &mut [u32], master: &mut Master<'_>) -> Outcome
    requires { good_image words.old ≡ true }
    ensures made { Through 0 call.entry (line_in words.old) (state_of master.old)
        (came result) (line_in words.new) (state_of master.new) }
    ensures good { good_image words.new ≡ true }
{
    let mut rack = ImageRack { words };
    on_rack(&mut rack, call, master)
}

/// Makes a call on a line that is made of a good image, which afterwards says what is left of the line.
pub(crate) fn on_line(
    kind: LineKind,
    call: Call<'_>,
    words: &mut [u32],
    master: &mut Master<'_>,
) -> Result<Outcome, Refusal>
    requires { good_image words.old ≡ true }
    ensures made { MatchResult result
        (λ y. Through (repeaters_of kind) call.entry (line_in words.old) (state_of master.old)
        (came y) (line_in words.new) (state_of master.new))
        (λ e. ⊥) }
    ensures good { good_image words.new ≡ true }
{
    match kind {
        LineKind::Bench { repeaters } => on_bench(repeaters, call, words, master),
        LineKind::Image => Ok(on_image(call, words, master)),
    }
}
