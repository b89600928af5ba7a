ghost use Rattle.std.specs.Prelude.{◌≡◌};
ghost use Rattle.values.specs.Refusals.{outcome};
ghost use Rattle.values.specs.Ranges.{nibble_from};

use super::refusal::Refusal;
use super::up_to::UpTo;

/// A number 0 to 15.
pub type Nibble = UpTo<15>;

impl TryFrom<u32> for Nibble {
    type Error = Refusal;

    ghost try_from_gives = { λ n r. outcome (λ x. x.value) r ≡ nibble_from n };

    fn try_from(n: u32) -> Result<Nibble, Refusal> {
        Nibble::checked(n).ok_or(Refusal::BadValue)
    }
}
