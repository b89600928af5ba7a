ghost use Rattle.std.specs.Prelude.{◌≡◌};
ghost use Rattle.runs.specs.Images.{RanOnImage, TriedOnImage};

use super::call::{Call, Outcome};
use super::plant::Idle;
use super::run::run;
use master::master::Master;
use racks::image_rack::ImageRack;
use stations::image::test_image;
use values::refusal::Refusal;

// The calls on a rack that is open. It still holds the words that it was lent.
fn run_on_rack(
    rack: &mut ImageRack<'_>,
    script: &[Call<'_>],
    master: &mut Master<'_>,
    log: &mut [Outcome],
) -> usize
    ensures lender { rack.new.words.ghost_name ≡ rack.old.words.ghost_name }
    ensures ran { RanOnImage script.now rack.old.words.now master.old log.old
        result rack.new.words.now master.new log.new }
{
    run(rack, &mut Idle, script, master, log)
}

/// Makes the calls of a script on an image rack over the words, between which nothing else alters them. Words that are no good image are refused, and
/// words, master and log then stay as they were. How many calls were made.
pub fn run_on_image(
    words: &mut [u32],
    script: &[Call<'_>],
    master: &mut Master<'_>,
    log: &mut [Outcome],
) -> Result<usize, Refusal>
    ensures { TriedOnImage script.now words.old master.old log.old
        result words.new master.new log.new }
{
    test_image(words)?;
    let mut rack = ImageRack { words };
    Ok(run_on_rack(&mut rack, script, master, log))
}
