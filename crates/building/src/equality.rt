// Whether two types are the same.
ghost use Rattle.building.specs.Entries.{SaysSameParts, SaysSameRuns};
ghost use Rattle.building.specs.Made.{SaysSameType};

use std::ops::Range;
use types::compare::same_units;
use types::entries::{Root, TypeEntry};

// Whether two types are alike part by part. Where one of them is no type of the table, the answer is free.
#[inline(always)]
#[cycle(equality)]
pub fn same(types: &[TypeEntry], a: Root, b: Root) -> bool
    ensures { SaysSameType types.now a.used a.entry b.used b.entry result }
{
    if a.used > types.len() || b.used > types.len() {
        return false;
    }
    same_parts(types, a, b).unwrap_or(false)
}

// The same. None where a part does not stand below its type.
#[cycle(equality)]
fn same_parts(types: &[TypeEntry], a: Root, b: Root) -> Option<bool>
    ensures { SaysSameParts types.now a.used a.entry b.used b.entry result }
{
    Some(match (a.entry, b.entry) {
        (
            TypeEntry::StringLiteral { first, count },
            TypeEntry::StringLiteral { first: f, count: c },
        ) => count == c && same_units(types, first, f, count),
        (TypeEntry::Function { first, count }, TypeEntry::Function { first: f, count: c }) => {
            same_runs(types, a.run(first, count)?, b.run(f, c)?)
                && same(types, a.part(types, first + count)?, b.part(types, f + c)?)
        }
        (TypeEntry::Pair { head, tail }, TypeEntry::Pair { head: h, tail: t }) => {
            same(types, a.part(types, head)?, b.part(types, h)?)
                && same(types, a.part(types, tail)?, b.part(types, t)?)
        }
        (TypeEntry::List { element: x }, TypeEntry::List { element: y }) => {
            same(types, a.part(types, x)?, b.part(types, y)?)
        }
        (TypeEntry::Union { first, count }, TypeEntry::Union { first: f, count: c }) => {
            same_runs(types, a.run(first, count)?, b.run(f, c)?)
        }
        _ => a.entry == b.entry,
    })
}

// Whether two runs of entries hold the same types.
#[inline(always)]
#[cycle(equality)]
fn same_runs(types: &[TypeEntry], run: Range<usize>, other: Range<usize>) -> bool
    ensures { SaysSameRuns types.now run.start run.end other.start other.end result }
{
    if run.len() != other.len() {
        return false;
    }
    // Not `all`: its closure would call back into this recursion, and such a closure gets no proof.
    for (x, y) in run.zip(other) {
        if !same(types, Root::at(types, x), Root::at(types, y)) {
            return false;
        }
    }
    true
}
