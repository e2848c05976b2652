// Entries written into the type table. It is one lent slice with the free entries from `used` on, and each function that makes
// a type there says by `kept` that those below stay. Were it lent the free ones alone, it would need `used` beside them too.
ghost use Rattle.std.specs.Prelude.{[], ◌∷◌};
ghost use Rattle.building.specs.Entries.{LeavesRest, Puts};
ghost use Rattle.building.specs.Made.{Kept};

use types::entries::TypeEntry;

// Writes some entries from `used` on and no others, and answers where they end. None, and nothing is written, where they do
// not fit in.
pub fn put(types: &mut [TypeEntry], used: usize, entries: &[TypeEntry]) -> Option<usize>
    ensures written { Puts types.new used entries.now result }
    ensures kept { Kept types.old types.new used }
    ensures rest { LeavesRest types.old types.new result }
{
    let end = used.checked_add(entries.len())?;
    if end > types.len() {
        return None;
    }
    // By indexes: of what is written through `get_mut`, a proof would know the length alone.
    types[used..end].copy_from_slice(entries);
    Some(end)
}

// Writes one entry, as `put` does. By itself, since a string is written unit by unit, and a slice of one entry is made and
// copied each time.
pub fn put_one(types: &mut [TypeEntry], at: usize, entry: TypeEntry) -> Option<usize>
    ensures written { Puts types.new at (entry ∷ []) result }
    ensures kept { Kept types.old types.new at }
    ensures rest { LeavesRest types.old types.new result }
{
    if at >= types.len() {
        return None;
    }
    types[at] = entry;
    Some(at + 1)
}
