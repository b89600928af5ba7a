ghost use Rattle.std.specs.Prelude.{◌≡◌, ◌+◌, ◌%◌, ◌<◌};

/// A number 0 to `MAX`.
#[derive(Clone, Copy, PartialEq, Eq)]
pub struct UpTo<const MAX: u8> {
    value: u8,
    ghost ok: { value < MAX + 1 },
}

impl<const MAX: u8> UpTo<MAX> {
    ghost use Rattle.values.specs.Ranges.{within};

    /// The number, where it is no greater than `MAX`.
    pub fn checked(n: u32) -> Option<UpTo<MAX>>
        ensures { within MAX n result }
    {
        if n > u32::from(MAX) {
            return None;
        }
        Some(UpTo { value: n as u8 })
    }

    /// The number counted round: 0 follows `MAX`. For a `MAX` of ones alone these are the low bits.
    pub fn low(n: u32) -> UpTo<MAX>
        ensures { result.value ≡ n % (MAX + 1) }
    {
        UpTo {
            value: (n % (u32::from(MAX) + 1)) as u8,
        }
    }

    /// The number, which is no greater than `MAX`.
    pub(crate) fn of(n: u8) -> UpTo<MAX>
        requires { n < MAX + 1 }
        ensures { result.value ≡ n }
    {
        UpTo { value: n }
    }

    pub fn get(self) -> u8
        ensures { result ≡ self.entry.value }
    {
        self.value
    }
}

impl<const MAX: u8> From<UpTo<MAX>> for u32 {
    ghost from_gives = { λ x r. r ≡ x.value };

    fn from(x: UpTo<MAX>) -> u32 {
        u32::from(x.value)
    }
}

impl<const MAX: u8> From<UpTo<MAX>> for usize {
    ghost from_gives = { λ x r. r ≡ x.value };

    fn from(x: UpTo<MAX>) -> usize {
        usize::from(x.value)
    }
}
