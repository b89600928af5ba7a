ghost use Rattle.std.specs.Prelude.{◌≡◌, ◌+◌, ◌*◌, ◌<◌, length};
ghost use Rattle.values.specs.Refusals.{outcome};
ghost use Rattle.stations.specs.Images.{word_at, words_of_bytes, image_from};

use super::image::IMAGE_WORDS;
use std::array;
use values::refusal::Refusal;

/// How many bytes an image has.
pub const IMAGE_BYTES: usize = 132;

/// Word `k` of the bytes, high byte first.
fn word_at(bytes: &[u8], k: usize) -> u32
    requires { 4 * k + 3 < length bytes.now }
    ensures { result ≡ word_at bytes.now k }
{
    let i = 4 * k;
    u32::from_be_bytes([bytes[i], bytes[i + 1], bytes[i + 2], bytes[i + 3]])
}

fn words_in(bytes: &[u8]) -> [u32; IMAGE_WORDS]
    requires { length bytes.now ≡ 132 }
    ensures { result ≡ words_of_bytes bytes.now }
{
    array::from_fn(|k| word_at(bytes, k))
}

/// The words of an image from its bytes, each word's high byte first.
pub fn image_from_bytes(bytes: &[u8]) -> Result<[u32; IMAGE_WORDS], Refusal>
    ensures { outcome (λ ws. ws) result ≡ image_from bytes.now }
{
    if bytes.len() == IMAGE_BYTES {
        Ok(words_in(bytes))
    } else {
        Err(Refusal::BadImage)
    }
}
