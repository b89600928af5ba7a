ghost use Rattle.std.specs.Prelude.{◌≡◌, ◌+◌, slice_set, option_map};
ghost use Rattle.values.specs.Refusals.{outcome};
ghost use Rattle.records.specs.Rows.{row_at, new_rows, outputs_outcome, outputs_after, inputs_outcome, agreeing, config_ok};
ghost use Rattle.records.specs.Records.{pair_of, rows, with_entry, detected_with, activated_with, forgotten_with};
ghost use Rattle.records.specs.Ahead.{first_active, FirstInactive};
ghost use Rattle.records.specs.Edits.{planned, copied, edited, taking_over};

use super::entry::{Codes, Entry};
use lists::member::{contains, set_member};
use lists::pair::Lists;
use values::address::Address;
use values::module_address::ModuleAddress;
use values::nibble::Nibble;
use values::refusal::Refusal;

/// How many addresses there are.
pub const ADDRESSES: usize = 32;

/// What is held for each address: its place in the three lists, and an entry.
#[derive(Drop)]
pub struct Rows {
    pub(crate) lists: Lists,
    pub(crate) lps: u32,
    pub(crate) entries: [Entry; ADDRESSES],
}

impl Rows {
    /// A row for each address as in a new master.
    pub(crate) fn new() -> Rows
        ensures { rows result ≡ new_rows }
    {
        let full = Nibble::low(15);
        let entry = Entry {
            cdi: Codes::none(),
            pcd: Codes::none(),
            pi: full,
            pp: full,
            idi: Nibble::low(0),
            odi: full,
            misses: 0,
        };
        Rows {
            lists: Lists::new(),
            lps: 0,
            entries: [entry; ADDRESSES],
        }
    }

    /// The three lists: LDS and LAS, and LPS.
    pub fn lists(&self) -> (Lists, u32)
        ensures lists { result.0 ≡ self.now.lists }
        ensures lps { result.1 ≡ self.now.lps }
    {
        (self.lists, self.lps)
    }

    /// What the record holds for an address besides its place in the lists.
    pub fn entry(&self, address: Address) -> Entry
        ensures { with_entry result (row_at address.value (rows self.now)) ≡ row_at address.value (rows self.now) }
    {
        let a = usize::from(address);
        self.entries[a]
    }

    pub fn set_entry(&mut self, to: Address, entry: Entry)
        ensures { rows self.new ≡ slice_set (rows self.old) to.value (with_entry entry (row_at to.value (rows self.old))) }
    {
        self.entries[usize::from(to)] = entry;
    }

    /// Puts an address into LDS, with this entry.
    pub fn detect(&mut self, address: Address, entry: Entry)
        ensures { rows self.new ≡ slice_set (rows self.old) address.value (detected_with entry (row_at address.value (rows self.old))) }
    {
        self.lists.detect(address);
        self.entries[usize::from(address)] = entry;
    }

    /// Puts an address into LAS, and with that into LDS, with this entry.
    pub fn activate(&mut self, address: ModuleAddress, entry: Entry)
        ensures { rows self.new ≡ slice_set (rows self.old) address.value (activated_with entry (row_at address.value (rows self.old))) }
    {
        self.lists.activate(address);
        self.entries[usize::from(Address::from(address))] = entry;
    }

    /// Takes an address out of LDS and LAS, with this entry.
    pub fn forget(&mut self, address: Address, entry: Entry)
        ensures { rows self.new ≡ slice_set (rows self.old) address.value (forgotten_with entry (row_at address.value (rows self.old))) }
    {
        self.lists.forget(address);
        self.entries[usize::from(address)] = entry;
    }

    /// Stores the outputs that the controller gives, inverted, as ODI.
    pub(crate) fn write_outputs(&mut self, address: u32, outputs: u32) -> Result<(), Refusal>
        ensures result { outcome (λ u. u) result ≡ outputs_outcome address outputs }
        ensures rows { rows self.new ≡ outputs_after address outputs (rows self.old) }
    {
        let to = Address::from(ModuleAddress::try_from(address)?);
        let outputs = Nibble::try_from(outputs)?;
        let odi = Nibble::low(15 - u32::from(outputs));
        let entry = self.entry(to);
        self.set_entry(to, Entry { odi, ..entry });
        Ok(())
    }

    /// IDI of an address.
    pub(crate) fn read_inputs(&self, address: u32) -> Result<Nibble, Refusal>
        ensures { outcome (λ n. n.value) result ≡ inputs_outcome address (rows self.now) }
    {
        let to = ModuleAddress::try_from(address)?;
        let entry = self.entry(Address::from(to));
        Ok(entry.idi)
    }

    pub fn is_detected(&self, address: Address) -> bool
        ensures { result ≡ (row_at address.value (rows self.now)).detected }
    {
        contains(self.lists.lds(), address)
    }

    pub fn is_active(&self, address: Address) -> bool
        ensures { result ≡ (row_at address.value (rows self.now)).active }
    {
        contains(self.lists.las(), address)
    }

    /// The first active address behind this one, up to 31.
    #[inline]
    pub fn first_active_behind(&self, at: Address) -> Option<ModuleAddress>
        ensures { option_map (λ a. a.value) result ≡ first_active (at.value + 1) (rows self.now) }
    {
        let ahead = self.lists.las() >> u32::from(at) >> 1;
        ModuleAddress::try_from(u32::from(at) + 1 + ahead.trailing_zeros()).ok()
    }

    /// The first address from this one on, 0 following 31, that is not active.
    #[inline]
    pub fn first_inactive(&self, from: Address) -> Address
        ensures { FirstInactive (rows self.now) from.value result.value }
    {
        let turned = self.lists.las().rotate_right(u32::from(from));
        Address::low(u32::from(from) + turned.trailing_ones())
    }

    pub fn is_projected(&self, address: Address) -> bool
        ensures { result ≡ (row_at address.value (rows self.now)).projected }
    {
        contains(self.lps, address)
    }

    /// Whether what is detected at an address is what is projected there.
    fn agrees(&self, address: Address) -> bool
        ensures { result ≡ agreeing (row_at address.value (rows self.now)) }
    {
        let projected = self.is_projected(address);
        if !self.is_detected(address) {
            return !projected;
        }
        let entry = self.entry(address);
        projected && entry.cdi == entry.pcd
    }

    /// Config_OK: what is detected is what is projected, and no module stands at address 0.
    pub fn config_ok(&self) -> bool
        ensures { result ≡ config_ok (rows self.now) }
    {
        !self.is_detected(Address::low(0)) && (0..32).all(|a| self.agrees(Address::low(a)))
    }

    /// Writes what is projected at an address.
    pub(crate) fn plan(
        &mut self,
        address: Address,
        projected: bool,
        codes: Codes,
        parameter: Nibble,
    )
        ensures { rows self.new ≡ slice_set (rows self.old) address.value (planned projected (pair_of codes) parameter.value (row_at address.value (rows self.old))) }
    {
        self.lps = set_member(self.lps, address, projected);
        let at = usize::from(address);
        let entry = self.entries[at];
        self.entries[at] = Entry {
            pcd: codes,
            pp: parameter,
            ..entry
        };
    }

    /// Copies what is detected at an address into the projection.
    fn copy_detected(&mut self, address: Address)
        ensures { rows self.new ≡ slice_set (rows self.old) address.value (copied (row_at address.value (rows self.old))) }
    {
        let entry = self.entry(address);
        let detected = self.is_detected(address);
        self.plan(address, detected, entry.cdi, entry.pi);
    }

    /// Projects what is detected at the addresses 1 to 31, with the actual parameters.
    pub(crate) fn take_over(&mut self)
        ensures { rows self.new ≡ edited taking_over (rows self.old) }
    {
        for a in 1..32u32 {
            self.copy_detected(Address::low(a));
        }
    }
}
