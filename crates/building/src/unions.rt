// Unions made in the type table.
ghost use Rattle.building.specs.Made.{Kept, MakesUnion};

use crate::members::OpenUnion;
use types::entries::{Root, TypeEntry};

// The union of two types whose parts stand below `used`. None where its members do not fit in from `used` on,
// also where there is only one. Where a or b is no type in form, the answer is free.
pub fn union_of_two(
    types: &mut [TypeEntry],
    used: usize,
    a: TypeEntry,
    b: TypeEntry,
) -> Option<Root>
    ensures made { MakesUnion types.old types.new used a b result }
    ensures kept { Kept types.old types.new used }
{
    if used > types.len() {
        return None;
    }
    if let (TypeEntry::Any, _) | (_, TypeEntry::Any) = (a, b) {
        return Some(Root {
            entry: TypeEntry::Any,
            used,
        });
    }
    let (parts, slots) = types.split_at_mut(used);
    let mut open = OpenUnion {
        parts,
        slots,
        count: 0,
    };
    open.add(a)?;
    open.add(b)?;
    Some(open.close())
}
