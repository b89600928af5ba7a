ghost use Rattle.std.specs.Prelude.{◌≡◌, true, length};
ghost use Rattle.values.specs.Refusals.{outcome};
ghost use Rattle.std.specs.List.{list_all};
ghost use Rattle.stations.specs.Stations.{place_of};
ghost use Rattle.stations.specs.Images.{place_in, word_of, word_of_power, good_station, good_power, good_image, tested};

use super::station::{Disturbance, Module, Station};
use values::nibble::Nibble;
use values::refusal::Refusal;

/// How many words an image has: one for each station, and one for power.
pub const IMAGE_WORDS: usize = 33;

pub const STATIONS: usize = 32;

pub const POWER_UP: u32 = 0xC000_0001;

const POWER_DOWN: u32 = 0xC000_0000;

impl Station {
    /// The station that an image word says; a word of any other kind than a module's says that it is vacant.
    pub fn from_word(word: u32) -> Station
        ensures { place_of result ≡ place_in word }
    {
        if word >> 30 != 1 {
            return Station { module: None };
        }
        Station {
            module: Some(Module {
                io_code: Nibble::low(word >> 24),
                id_code: Nibble::low(word >> 20),
                inputs: Nibble::low(word >> 16),
                outputs: Nibble::low(word >> 12),
                parameter: Nibble::low(word >> 8),
                direction: Nibble::low(word),
                enabled: (word >> 7) % 2 == 1,
                disturbance: Disturbance::low(word >> 4),
            }),
        }
    }

    /// The image word that says this station.
    pub fn word(&self) -> u32
        ensures { result ≡ word_of (place_of self.now) }
    {
        match self.module {
            None => 0,
            Some(m) => {
                (1 << 30)
                    + (u32::from(m.io_code) << 24)
                    + (u32::from(m.id_code) << 20)
                    + (u32::from(m.inputs) << 16)
                    + (u32::from(m.outputs) << 12)
                    + (u32::from(m.parameter) << 8)
                    + (u32::from(m.enabled) << 7)
                    + (u32::from(m.disturbance) << 4)
                    + u32::from(m.direction)
            }
        }
    }
}

fn is_station_word(word: u32) -> bool
    ensures { result ≡ good_station word }
{
    word == 0 || word >> 30 == 1 && (word >> 28) % 4 == 0
}

fn are_station_words(words: &[u32]) -> bool
    ensures { result ≡ list_all good_station words.now }
{
    words.iter().all(|&word| is_station_word(word))
}

/// The word that says whether power is up.
pub fn power_word(powered: bool) -> u32
    ensures { result ≡ word_of_power powered }
{
    if powered { POWER_UP } else { POWER_DOWN }
}

fn is_power_word(word: u32) -> bool
    ensures { result ≡ good_power word }
{
    word == POWER_UP || word == POWER_DOWN
}

/// Whether these are 33 good words.
pub fn is_image(words: &[u32]) -> bool
    ensures is { result ≡ good_image words.now }
    ensures long { result ≡ true → length words.now ≡ 33 }
{
    if words.len() != IMAGE_WORDS {
        return false;
    }
    are_station_words(&words[0..STATIONS]) && is_power_word(words[STATIONS])
}

/// Refuses words that are not 33 good ones.
pub fn test_image(words: &[u32]) -> Result<(), Refusal>
    ensures { outcome (λ u. u) result ≡ tested words.now }
{
    if is_image(words) {
        Ok(())
    } else {
        Err(Refusal::BadImage)
    }
}
