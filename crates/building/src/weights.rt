// The weight of a type.
ghost use Rattle.std.specs.Prelude.{◌≡◌, ◌+◌, min};
ghost use Rattle.building.specs.Entries.{SaysPartsWeigh, SaysRunWeighs};
ghost use Rattle.building.specs.Made.{SaysWeight};

use std::ops::Range;
use types::entries::{Root, TypeEntry};

// The sum, or the limit where it is more.
fn sum_within(a: usize, b: usize, limit: usize) -> usize
    ensures { result ≡ min (a + b) limit }
{
    a.saturating_add(b).min(limit)
}

// The weight of a type, or the limit where it is more. Where it is no type of the table, the answer is free.
#[cycle(weights)]
pub fn weight_within(types: &[TypeEntry], a: Root, limit: usize) -> usize
    ensures { SaysWeight types.now a.used a.entry limit result }
{
    if a.used > types.len() {
        return 0;
    }
    parts_weigh(types, a, limit).map_or(0, |parts| sum_within(1, parts, limit))
}

// The weight of the parts of a type; where it is over the limit, some number that is. None where a part does not stand
// below the type.
#[cycle(weights)]
fn parts_weigh(types: &[TypeEntry], a: Root, limit: usize) -> Option<usize>
    ensures { SaysPartsWeigh types.now a.used a.entry limit result }
{
    Some(match a.entry {
        TypeEntry::StringLiteral { count, .. } => count,
        TypeEntry::Function { first, count } => {
            let parameters = run_weighs(types, a.run(first, count)?, limit);
            let res = weight_within(types, a.part(types, first + count)?, limit);
            sum_within(parameters, res, limit)
        }
        TypeEntry::Pair { head, tail } => {
            let h = weight_within(types, a.part(types, head)?, limit);
            let t = weight_within(types, a.part(types, tail)?, limit);
            sum_within(h, t, limit)
        }
        TypeEntry::List { element } => weight_within(types, a.part(types, element)?, limit),
        TypeEntry::Union { first, count } => run_weighs(types, a.run(first, count)?, limit),
        _ => 0,
    })
}

// The weights of the types in a run of entries together, or the limit. A `for`, since a recursion through a closure gets no
// proof.
#[cycle(weights)]
fn run_weighs(types: &[TypeEntry], run: Range<usize>, limit: usize) -> usize
    ensures { SaysRunWeighs types.now run.start run.end limit result }
{
    let mut sum = 0;
    for k in run {
        let weight = weight_within(types, Root::at(types, k), limit);
        sum = sum_within(sum, weight, limit);
    }
    sum
}
