//! Appends an entry to the list of a module's array and record types.

ghost use Rattle.std.specs.Prelude.{◌≡◌, ◌++◌, ◌∷◌, [], length, IfOk, OnOk, OnErr};
ghost use Rattle.ob0_types_table.specs.DeclarationTableView.{type_id_of_entry};

use crate::declaration_table::TypeEntry;
use crate::types::TypeId;
use std::alloc::AllocError;

/// Appends the entry of an array or record type and returns the `TypeId` that refers to this entry.
/// If the allocation fails, `entries` is unchanged.
pub fn add_entry(entries: &mut Vec<TypeEntry>, entry: TypeEntry) -> Result<TypeId, AllocError>
    ensures made { IfOk result (λ of. of ≡ type_id_of_entry entry (length entries.old.items)) }
    ensures added { OnOk result (entries.new.items ≡ entries.old.items ++ entry ∷ []) }
    ensures err { OnErr result (entries.new.items ≡ entries.old.items) }
{
    let of = type_id_of_entry(&entry, entries.len());
    entries.push(entry)?;
    Ok(of)
}

/// Returns the `TypeId` of an entry that has the index `place` in the table.
fn type_id_of_entry(entry: &TypeEntry, place: usize) -> TypeId
    ensures { result ≡ type_id_of_entry entry.now place }
{
    match entry {
        TypeEntry::Array(_) => TypeId::Array(place),
        TypeEntry::Record(_) => TypeId::Record(place),
    }
}
