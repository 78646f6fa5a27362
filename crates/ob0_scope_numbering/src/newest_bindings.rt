//! Finds the newest binding of each name.
//!
//! The list `entries` has each name that was ever bound, with the index of the name's newest
//! binding. The map `name_positions` has the position of each name in this list. A name keeps its
//! position even if it has no binding any more. So hiding or removing a binding of a known name
//! changes only an entry of the list and allocates nothing. A binding has the position of its name,
//! so the name isn't read when the binding is removed.
//!
//! A key of the map is a name preceded by a number made of the name's last eight bytes. Nearly all
//! comparisons of keys are between two numbers. If the numbers are equal, the names are compared,
//! so even names with the same last bytes are found in logarithmic time.
//!
//! A small table of recent names is searched before the map. A name's length and a few of its bytes
//! give an index of this table. At this index, the table has the list position of the last name
//! that was looked up with the same index. The position is only a hint: the name at the position is
//! compared with the sought name. So the proof needs no fact about the table.

ghost use Rattle.std.specs.Prelude.{◌≡◌, [], IfOk, IfSome, OnErr, OnOk, None, Some};
ghost use Rattle.ob0_scope_numbering.specs.NameKeys.{number_from_last_bytes, append_byte, append_bytes};
ghost use Rattle.ob0_scope_numbering.specs.NewestBindingList.{AppendsName, SetsNewestBinding, KeepsNewestBindings, KeepsNamePositions, newest_binding_in, position_of_name};
ghost use Rattle.ob0_language_names.specs.Names.{Name};

use std::alloc::{AllocError, Global};
use std::collections::BTreeMap;
use std::marker::Model;

/// The length of the table of recent names. It is a power of two.
const RECENT_NAME_TABLE_LENGTH: usize = 1024;

/// A name as a key of the map. The number before the name is made of the name's last eight bytes,
/// which distinguish most names.
type NameKey<'t> = (u64, &'t str);

/// Returns the key of a name in the map.
fn key_of_name<'t>(name: &'t str) -> (u64, &'t str)
    ensures { result ≡ (number_from_last_bytes name.entry.now, name.entry) }
{
    (number_from_last_bytes(name.as_bytes()), name)
}

/// Returns the number that precedes a name in its key. The number is made of the name's last eight
/// bytes, so a long name costs no more than a short one.
fn number_from_last_bytes(bytes: &[u8]) -> u64
    ensures { result ≡ number_from_last_bytes bytes.now }
{
    number_from_bytes(&bytes[bytes.len().saturating_sub(8)..])
}

/// Returns the number whose base-256 digits are these bytes, modulo 2^64.
fn number_from_bytes(bytes: &[u8]) -> u64
    ensures { result ≡ append_bytes bytes.now 0 }
{
    let mut number = 0;
    for byte in bytes {
        number = append_byte(number, *byte);
    }
    number
}

/// Appends a byte to a number as its last base-256 digit, modulo 2^64.
fn append_byte(number: u64, byte: u8) -> u64
    ensures { result ≡ append_byte number byte }
{
    number.wrapping_mul(256).wrapping_add(u64::from(byte))
}

/// Returns the length of a name and a few of its bytes in one number, enough to distinguish most
/// names. If the name has four bytes or more, the first byte and the last three are used. A shorter
/// name is represented by its first, last and middle byte, and the empty name by 0.
fn name_fingerprint(name: &str) -> u64 {
    let bytes = name.as_bytes();
    let len = bytes.len();
    if len == 0 {
        return 0;
    }
    let first = u64::from(bytes[0]);
    let last = u64::from(bytes[len - 1]);
    let ends = (len as u64) << 16 | first << 8 | last;
    if len < 4 {
        return ends << 8 | u64::from(bytes[len / 2]);
    }
    ends << 16 | u64::from(bytes[len - 2]) << 8 | u64::from(bytes[len - 3])
}

/// Returns the index of a name in the table of recent names. The name's fingerprint
/// (`name_fingerprint`) is multiplied by a large constant, modulo 2^64. The index is the ten
/// highest bits of this product, which depend on all bits of the fingerprint.
fn recent_name_table_index(name: &str) -> usize {
    (name_fingerprint(name).wrapping_mul(0x9E37_79B9_7F4A_7C15) >> 54) as usize
}

/// Returns a table of recent names that has the position 0 at each index, although no name has been
/// looked up yet. That is harmless, because a look-up compares the name at that position with the
/// sought name (`find_position_in_recent_names`).
fn new_recent_name_table(alloc: Global) -> Result<Vec<usize>, AllocError> {
    vec![in alloc; 0; RECENT_NAME_TABLE_LENGTH]
}

/// A name, with the index of its newest binding, counted from the oldest of all bindings. The index
/// is None if the name has no binding.
#[derive(Clone, Copy)]
pub(crate) struct NameEntry<'t> {
    name: &'t str,
    newest: Option<usize>,
}

/// A list of names with their newest bindings, each name once (`entries`). The name that a renaming
/// introduces is first. The other names follow in the order in which they were first bound. The map
/// `name_positions` gives a name's position in `entries` in logarithmic time, whatever the names
/// are. For a recently found name, the table `recent_positions` usually gives the position without
/// a search of the map.
#[derive(Drop)]
pub(crate) struct NewestBindings<'t> {
    entries: Vec<NameEntry<'t>>,
    name_positions: BTreeMap<NameKey<'t>, usize>,
    recent_positions: Vec<usize>,
}

impl<'t> Model for NewestBindings<'t> {
    ghost use Rattle.std.specs.Prelude.{List};
    ghost use Rattle.ob0_scope_numbering.specs.declared.newest_bindings.NameEntry.{NameEntry};
    ghost use Rattle.ob0_scope_numbering.specs.NewestBindingList.{AreNamePositions};

    ghost Value = { List NameEntry };

    ghost view = { λ t. t.entries.items };

    ghost invariant = { λ t. AreNamePositions t.name_positions t.entries.items };
}

impl<'t> NewestBindings<'t> {
    /// Returns a list with only the name `first`, which has position 0 and no binding. So the
    /// newest binding of this name can be found without reading the name
    /// (`newest_binding_of_first_name`).
    pub(crate) fn new(alloc: Global, first: &'t str) -> Result<NewestBindings<'t>, AllocError>
        ensures none { IfOk result (λ t. (x : Name) → newest_binding_in t x ≡ None) }
        ensures first { IfOk result (λ t. position_of_name t first.now ≡ Some 0) }
    {
        let mut newest = NewestBindings::with_no_names(alloc)?;
        newest.add_name(first)?;
        Ok(newest)
    }

    /// Returns an empty list of names.
    fn with_no_names(alloc: Global) -> Result<NewestBindings<'t>, AllocError>
        ensures { IfOk result (λ t. t ≡ []) }
    {
        Ok(NewestBindings {
            entries: Vec::new(alloc),
            name_positions: BTreeMap::new(alloc),
            recent_positions: new_recent_name_table(alloc)?,
        })
    }

    /// Returns the index of the newest binding of the name at position 0. Returns None if that name
    /// has no binding, or if the list is empty.
    pub(crate) fn newest_binding_of_first_name(&self) -> Option<usize>
        ensures { (x : Name) → position_of_name self.now x ≡ Some 0
            → result ≡ newest_binding_in self.now x }
    {
        if self.entries.is_empty() {
            return None;
        }
        self.entries[0].newest
    }

    /// Returns the position that the table of recent names has at the index `slot`, if `name` is at
    /// this position of the list. Otherwise returns None.
    #[inline(always)]
    fn find_position_in_recent_names(&self, slot: usize, name: &'t str) -> Option<usize>
        ensures { IfSome result (λ name_position. position_of_name self.now name.now
            ≡ Some name_position) }
    {
        let name_position = match self.recent_positions.get(slot) {
            None => return None,
            Some(name_position) => *name_position,
        };
        if name_position < self.entries.len() && self.entries[name_position].name == name {
            Some(name_position)
        } else {
            None
        }
    }

    /// Writes a name's position in the list into the table of recent names, at the index `slot`.
    fn remember_position(&mut self, slot: usize, name_position: usize)
        ensures { self.new ≡ self.old }
    {
        if slot < self.recent_positions.len() {
            self.recent_positions[slot] = name_position;
        }
    }

    /// Returns the position of a name in the list, or None if the name isn't in the list. Searches
    /// the table of recent names first, and then the map.
    #[inline(always)]
    fn find_name_position(&mut self, name: &'t str) -> Option<usize>
        ensures found { result ≡ position_of_name self.old name.now }
        ensures same { self.new ≡ self.old }
    {
        let slot = recent_name_table_index(name);
        match self.find_position_in_recent_names(slot, name) {
            Some(name_position) => Some(name_position),
            None => self.find_position_in_map(slot, name),
        }
    }

    /// Returns the position of a name in the list, found in the map. Also writes the position into
    /// the table of recent names, at the index `slot`. Returns None if the name isn't in the list.
    #[cold]
    fn find_position_in_map(&mut self, slot: usize, name: &'t str) -> Option<usize>
        ensures found { result ≡ position_of_name self.old name.now }
        ensures same { self.new ≡ self.old }
    {
        let name_position = match self.name_positions.get(&key_of_name(name)) {
            None => return None,
            Some(name_position) => *name_position,
        };
        self.remember_position(slot, name_position);
        Some(name_position)
    }

    /// Adds a name without a binding at the end of the list. The name must not be in the list. If
    /// an allocation fails, the list is unchanged.
    fn add_name(&mut self, name: &'t str) -> Result<(), AllocError>
        requires { position_of_name self.old name.now ≡ None }
        ensures added { OnOk result (AppendsName self.old self.new name.now) }
        ensures newest { OnOk result (KeepsNewestBindings self.old self.new) }
        ensures same { OnErr result (self.new ≡ self.old) }
    {
        self.entries.reserve(1)?;
        self.name_positions
            .insert(key_of_name(name), self.entries.len())?;
        self.entries.push_reserved(NameEntry { name, newest: None });
        Ok(())
    }

    /// Returns the position of a name. If the name isn't in the list, it is added first. If an
    /// allocation fails, the list is unchanged.
    pub(crate) fn find_or_add_name(&mut self, name: &'t str) -> Result<usize, AllocError>
        ensures placed { IfOk result (λ name_position. position_of_name self.new name.now
            ≡ Some name_position) }
        ensures name_positions { OnOk result (KeepsNamePositions self.old self.new) }
        ensures newest { OnOk result (KeepsNewestBindings self.old self.new) }
        ensures same { OnErr result (self.new ≡ self.old) }
    {
        if let Some(name_position) = self.find_name_position(name) {
            return Ok(name_position);
        }
        let name_position = self.entries.len();
        self.add_name(name)?;
        self.remember_position(recent_name_table_index(name), name_position);
        Ok(name_position)
    }

    /// Returns the index of the newest binding of the name at a position. Returns None if that name
    /// has no binding.
    pub(crate) fn newest_binding_at(&self, name_position: usize, name: &'t str) -> Option<usize>
        requires { position_of_name self.now name.now ≡ Some name_position }
        ensures { result ≡ newest_binding_in self.now name.now }
    {
        self.entries[name_position].newest
    }

    /// Sets the index of the newest binding of the name at a position. None means that the name has
    /// no binding.
    pub(crate) fn set_newest_binding(
        &mut self,
        name_position: usize,
        name: &'t str,
        newest: Option<usize>,
    )
        requires { position_of_name self.old name.now ≡ Some name_position }
        ensures renewed { SetsNewestBinding self.old self.new name.now newest }
        ensures name_positions { KeepsNamePositions self.old self.new }
    {
        self.entries[name_position] = NameEntry { name, newest };
    }

    /// Returns the index of a name's newest binding. Returns None if the name has no binding.
    pub(crate) fn newest_binding_of(&mut self, name: &'t str) -> Option<usize>
        ensures found { result ≡ newest_binding_in self.old name.now }
        ensures same { self.new ≡ self.old }
    {
        let name_position = match self.find_name_position(name) {
            None => return None,
            Some(name_position) => name_position,
        };
        self.newest_binding_at(name_position, name)
    }
}
