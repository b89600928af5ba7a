ghost use Rattle.std.specs.Prelude.{◌≡◌};
ghost use Rattle.records.specs.Rows.{no_codes};
ghost use Rattle.records.specs.Records.{pair_of};

use values::nibble::Nibble;

/// The I/O code and the ID code of a module.
#[derive(Clone, Copy, PartialEq, Eq)]
pub struct Codes {
    pub io: Nibble,
    pub id: Nibble,
}

impl Codes {
    /// What stands for the codes where no module was detected or projected.
    pub fn none() -> Codes
        ensures { pair_of result ≡ no_codes }
    {
        let full = Nibble::low(15);
        Codes { io: full, id: full }
    }
}

/// What the record holds for one address besides its place in the lists.
#[derive(Clone, Copy, PartialEq, Eq)]
pub struct Entry {
    pub cdi: Codes,
    pub pcd: Codes,
    pub pi: Nibble,
    pub pp: Nibble,
    pub idi: Nibble,
    pub odi: Nibble,
    pub misses: u8,
}
