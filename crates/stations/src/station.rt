use values::nibble::Nibble;
use values::up_to::UpTo;

/// How many of the next requests to a module are disturbed, 0 to 7.
pub type Disturbance = UpTo<7>;

#[derive(Clone, Copy, PartialEq, Eq)]
pub struct Module {
    pub io_code: Nibble,
    pub id_code: Nibble,
    pub inputs: Nibble,
    pub outputs: Nibble,
    pub parameter: Nibble,
    /// A bit of one marks an output port.
    pub direction: Nibble,
    /// Set by Write_Parameter, cleared by Reset: without it no data is exchanged.
    pub enabled: bool,
    pub disturbance: Disturbance,
}

/// A place for one address: vacant, or holding a module.
#[derive(Clone, Copy, PartialEq, Eq)]
pub struct Station {
    pub module: Option<Module>,
}
