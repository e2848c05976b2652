// Whether two types of a type table have a common value.
ghost use Rattle.types.specs.Inner.{SaysMeetByParts, SaysSomeMeet};
ghost use Rattle.types.specs.Table.{SaysMeet};

use crate::compare::same_units;
use crate::entries::{Root, TypeEntry};
use crate::kinds::{Verdict, kind_of, verdict_of};
use std::ops::Range;

// Whether two types have a common value. Where one of them is no type of the table, the answer is free. Of an entry of
// the table `used` is its index, and the sum of the two falls with each step to parts. Inlined, as most types have no
// parts, and one look into the table of kinds answers; the functions for parts and members are not, so that it stays small.
#[inline(always)]
#[cycle(meeting)]
pub fn meets(types: &[TypeEntry], a: Root, b: Root) -> bool
    ensures { SaysMeet types.now a.used a.entry b.used b.entry result }
{
    if a.used > types.len() || b.used > types.len() {
        return false;
    }
    // Not `is_some_and`: its closure would call back into this recursion, and such a closure gets no proof.
    match (a.entry, b.entry) {
        (TypeEntry::Union { first, count }, _) => match a.run(first, count) {
            Some(members) => some_meets(types, members, b),
            None => false,
        },
        (_, TypeEntry::Union { first, count }) => match b.run(first, count) {
            Some(members) => meets_some(types, a, members),
            None => false,
        },
        (x, y) => {
            let (Some(kind), Some(other)) = (kind_of(x), kind_of(y)) else {
                return true;
            };
            match verdict_of(kind, other) {
                Verdict::Meet => true,
                Verdict::Never => false,
                Verdict::ByParts => parts_meet(types, a, b).unwrap_or(false),
            }
        }
    }
}

// Whether one of the types in a run of entries meets another type. A `for`, since a recursion through a closure gets no
// proof.
#[inline(never)]
#[cycle(meeting)]
fn some_meets(types: &[TypeEntry], run: Range<usize>, other: Root) -> bool
    ensures { SaysSomeMeet types.now run.start run.end other.used other.entry result }
{
    for k in run {
        if meets(types, Root::at(types, k), other) {
            return true;
        }
    }
    false
}

// Whether a type meets one of the types in a run of entries. Apart from the function above, so that each type keeps its
// side: the parts of two types are then asked in one order, whichever of the two a union holds.
#[inline(never)]
#[cycle(meeting)]
fn meets_some(types: &[TypeEntry], other: Root, run: Range<usize>) -> bool
    ensures { SaysSomeMeet types.now run.start run.end other.used other.entry result }
{
    for j in run {
        if meets(types, other, Root::at(types, j)) {
            return true;
        }
    }
    false
}

// Whether two types of kinds that meet by their parts do so. None where a part does not stand below its type.
#[inline(never)]
#[cycle(meeting)]
fn parts_meet(types: &[TypeEntry], a: Root, b: Root) -> Option<bool>
    ensures { SaysMeetByParts types.now a.used a.entry b.used b.entry result }
{
    let met = match (a.entry, b.entry) {
        (
            TypeEntry::NumberLiteral { digits, exponent },
            TypeEntry::NumberLiteral {
                digits: d,
                exponent: e,
            },
        ) => (digits, exponent) == (d, e),
        (
            TypeEntry::StringLiteral { first, count },
            TypeEntry::StringLiteral { first: f, count: c },
        ) => count == c && same_units(types, first, f, count),
        (TypeEntry::Function { count, .. }, TypeEntry::Function { count: c, .. }) => count == c,
        (TypeEntry::Pair { head, tail }, TypeEntry::Pair { head: h, tail: t }) => {
            meets(types, a.part(types, head)?, b.part(types, h)?)
                && meets(types, a.part(types, tail)?, b.part(types, t)?)
        }
        (TypeEntry::Pair { head, tail }, TypeEntry::List { element }) => {
            meets(types, a.part(types, head)?, b.part(types, element)?)
                && meets(types, a.part(types, tail)?, b)
        }
        (TypeEntry::List { element }, TypeEntry::Pair { head, tail }) => {
            meets(types, a.part(types, element)?, b.part(types, head)?)
                && meets(types, a, b.part(types, tail)?)
        }
        _ => false,
    };
    Some(met)
}
