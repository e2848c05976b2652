// Pair types and list types made in the type table.
ghost use Rattle.building.specs.Made.{Kept, MakesList, MakesPair};

use crate::put::put;
use types::entries::{Root, TypeEntry};

// `Pair<a, b>`, where the parts of a and b stand below `used`. None where two entries do not fit in from `used` on.
pub fn pair_of(types: &mut [TypeEntry], used: usize, a: TypeEntry, b: TypeEntry) -> Option<Root>
    ensures made { MakesPair types.old types.new used a b result }
    ensures kept { Kept types.old types.new used }
{
    let end = put(types, used, &[a, b])?;
    Some(Root {
        entry: TypeEntry::Pair {
            head: used,
            tail: used + 1,
        },
        used: end,
    })
}

// `List<a>`, where the parts of a stand below `used`. None where an entry does not fit in from `used` on.
pub fn list_of(types: &mut [TypeEntry], used: usize, a: TypeEntry) -> Option<Root>
    ensures made { MakesList types.old types.new used a result }
    ensures kept { Kept types.old types.new used }
{
    let end = put(types, used, &[a])?;
    Some(Root {
        entry: TypeEntry::List { element: used },
        used: end,
    })
}
