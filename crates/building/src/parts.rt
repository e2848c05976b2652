// The head part and the tail part of a type.
ghost use Rattle.std.specs.Prelude.{◌≡◌};
ghost use Rattle.building.specs.Entries.{AddsPart, AddsParts, SameTable, SaysAnyPart, SaysPartAny, counted};
ghost use Rattle.building.specs.Made.{GivesPart, Kept, MakesPart};

use crate::members::OpenUnion;
use std::ops::Range;
use types::entries::{Root, TypeEntry};

#[derive(Clone, Copy, PartialEq, Eq, Debug)]
pub enum Side {
    Head,
    Tail,
}

// There is no room for what is made.
#[derive(Clone, Copy, PartialEq, Eq, Debug)]
pub struct NoRoom;

// The part on a side of a type that is no union; a union has none of its own.
// Where it is no type of the table, the answer is free.
pub fn own_part(types: &[TypeEntry], a: Root, side: Side) -> Option<TypeEntry>
    ensures { GivesPart types.now a.used a.entry side result }
{
    match (a.entry, side) {
        (TypeEntry::Any, _) => Some(a.entry),
        (TypeEntry::List { .. }, Side::Tail) => Some(a.entry),
        (TypeEntry::List { element }, Side::Head) => Some(a.part(types, element)?.entry),
        (TypeEntry::Pair { head, .. }, Side::Head) => Some(a.part(types, head)?.entry),
        (TypeEntry::Pair { tail, .. }, Side::Tail) => Some(a.part(types, tail)?.entry),
        _ => None,
    }
}

// Whether the part on a side of a type is `any`.
fn part_is_any(types: &[TypeEntry], a: Root, side: Side) -> bool
    ensures { SaysPartAny types.now a.used a.entry side result }
{
    own_part(types, a, side) == Some(TypeEntry::Any)
}

// Whether the part of some type in a run of entries is `any`.
fn has_any_part(types: &[TypeEntry], mut run: Range<usize>, side: Side) -> bool
    ensures { SaysAnyPart types.now run.start run.end side result }
{
    run.any(|k| part_is_any(types, Root::at(types, k), side))
}

impl<'p, 's> OpenUnion<'p, 's> {
    // Adds the part on a side of the type e, if it has one. None where there is no room.
    fn add_part(&mut self, e: TypeEntry, side: Side) -> Option<()>
        ensures lent { SameTable self.old self.new }
        ensures added { AddsPart self.old.parts.now self.old.slots.now self.new.slots.now self.old.count e side (counted result self.new.count) }
    {
        let parts = self.parts;
        let a = Root {
            entry: e,
            used: parts.len(),
        };
        // No `map_or`: of what a closure has borrowed to change, a proof knows nothing afterwards, even if it is not called.
        match own_part(parts, a, side) {
            Some(part) => self.add(part),
            None => Some(()),
        }
    }

    // Adds the parts of some types to an empty one. None where there is no room.
    fn add_parts(&mut self, members: &[TypeEntry], side: Side) -> Option<()>
        ensures lent { SameTable self.old self.new }
        ensures added { self.old.count ≡ 0 → AddsParts self.old.parts.now self.new.slots.now members.now side (counted result self.new.count) }
    {
        for member in members {
            self.add_part(*member, side)?;
        }
        Some(())
    }
}

// The part on a side of a type: of a union, the union of the parts of its members. None where it has no such part;
// `NoRoom` where the members of that union do not fit in from `a.used` on.
// Where it is no type of the table, or not in form, the answer is free.
pub fn part_of(types: &mut [TypeEntry], a: Root, side: Side) -> Result<Option<Root>, NoRoom>
    ensures made { MakesPart types.old types.new a.used a.entry side result }
    ensures kept { Kept types.old types.new a.used }
{
    let used = a.used;
    if used > types.len() {
        return Err(NoRoom);
    }
    let TypeEntry::Union { first, count: size } = a.entry else {
        return Ok(own_part(types, a, side).map(|entry| Root { entry, used }));
    };
    // A let-else: `?` gives no Ok(None).
    let Some(Range { start, end }) = a.run(first, size) else {
        return Ok(None);
    };
    if has_any_part(types, start..end, side) {
        return Ok(Some(Root {
            entry: TypeEntry::Any,
            used,
        }));
    }
    let (parts, slots) = types.split_at_mut(used);
    let parts = &*parts;
    let mut open = OpenUnion {
        parts,
        slots,
        count: 0,
    };
    open.add_parts(&parts[start..end], side).ok_or(NoRoom)?;
    if open.count == 0 {
        return Ok(None);
    }
    Ok(Some(open.close()))
}
