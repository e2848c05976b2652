// Types copied from one run of entries to another.
ghost use Rattle.std.specs.Prelude.{◌≡◌};
ghost use Rattle.building.specs.Entries.{shift};
ghost use Rattle.building.specs.Made.{Kept, MakesCopy};

use types::entries::{Root, TypeEntry};

// The same entry with the indexes of its parts moved up.
fn shifted(e: TypeEntry, by: usize) -> TypeEntry
    ensures { result ≡ shift by e }
{
    match e {
        TypeEntry::StringLiteral { first, count } => TypeEntry::StringLiteral {
            first: first.saturating_add(by),
            count,
        },
        TypeEntry::Function { first, count } => TypeEntry::Function {
            first: first.saturating_add(by),
            count,
        },
        TypeEntry::Pair { head, tail } => TypeEntry::Pair {
            head: head.saturating_add(by),
            tail: tail.saturating_add(by),
        },
        TypeEntry::List { element } => TypeEntry::List {
            element: element.saturating_add(by),
        },
        TypeEntry::Union { first, count } => TypeEntry::Union {
            first: first.saturating_add(by),
            count,
        },
        _ => e,
    }
}

// Copies a type that stands in other entries, with all of those that it has in use, to the entries from `used` on.
// None where they do not fit in. Where it is no type of those entries, or one of them stands for nothing, the answer is
// free.
pub fn copied(
    types: &mut [TypeEntry],
    used: usize,
    others: &[TypeEntry],
    made: Root,
) -> Option<Root>
    ensures made { MakesCopy types.old types.new used others.now made result }
    ensures kept { Kept types.old types.new used }
{
    let entries = others.get(..made.used)?;
    let end = used.checked_add(made.used)?;
    if end > types.len() {
        return None;
    }
    for (k, entry) in entries.iter().enumerate() {
        types[used + k] = shifted(*entry, used);
    }
    Some(Root {
        entry: shifted(made.entry, used),
        used: end,
    })
}
