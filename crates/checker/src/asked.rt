// The type of an expression of a checked sheet.
ghost use Rattle.std.specs.Prelude.{◌≡◌, ◌+◌, ◌<◌, ◌≤◌, Decides};
ghost use Rattle.types.specs.Table.{entry_at as type_at};
ghost use Rattle.checker.specs.Orders.{Every, HeadsInOrder, IsInOrder, OfType, OfUnit, Orderly, PartsInOrder, TypeTold};

use crate::stage::Checked;
use crate::store::head_of;
use lexer::reasons::Reason;
use lexer::refusal::Refusal;
use parser::tables::TYPES;
use types::compare::run_below;
use types::entries::{Root, TypeEntry};

// Whether an entry is a code unit.
fn is_unit(e: TypeEntry) -> bool
    ensures { Decides result (OfUnit e) }
{
    matches!(e, TypeEntry::CodeUnit(_))
}

// Whether an entry is a type.
fn is_type(e: TypeEntry) -> bool
    ensures { Decides result (OfType e) }
{
    !matches!(e, TypeEntry::Unused | TypeEntry::CodeUnit(_))
}

// The entry at an index. Past the end it is blank, which is never in order.
fn entry_at(types: &[TypeEntry], i: usize) -> TypeEntry
    ensures { result ≡ type_at types.now i }
{
    Root::at(types, i).entry
}

// Whether the `count` entries from `first` on stand below the index `end`, and are code units.
fn units_below(types: &[TypeEntry], first: usize, count: usize, end: usize) -> bool
    ensures { Decides result ((first + count ≤ end) × Every OfUnit types.now first count) }
{
    run_below(first, count, end) && (first..first + count).all(|i| is_unit(entry_at(types, i)))
}

// The same of types. A twin: one function for both would take a closure, and its clause would have to say what that tells.
fn types_below(types: &[TypeEntry], first: usize, count: usize, end: usize) -> bool
    ensures { Decides result ((first + count ≤ end) × Every OfType types.now first count) }
{
    run_below(first, count, end) && (first..first + count).all(|i| is_type(entry_at(types, i)))
}

// Whether the entry at j is a type, and lower than i.
fn is_part(types: &[TypeEntry], i: usize, j: usize) -> bool
    ensures { Decides result ((j < i) × OfType (type_at types.now j)) }
{
    j < i && is_type(entry_at(types, j))
}

// Whether an entry is of a known kind, and its parts stand below i, and are of the kinds that can stand there. Inlined, as most
// entries have no parts.
#[inline(always)]
fn is_orderly(types: &[TypeEntry], i: usize, e: TypeEntry) -> bool
    ensures { Decides result (Orderly types.now i e) }
{
    match e {
        TypeEntry::Unused => false,
        TypeEntry::StringLiteral { first, count } => units_below(types, first, count, i),
        // the result is the entry after the parameters
        TypeEntry::Function { first, count } => {
            count < i && types_below(types, first, count + 1, i)
        }
        TypeEntry::Pair { head, tail } => is_part(types, i, head) && is_part(types, i, tail),
        TypeEntry::List { element } => is_part(types, i, element),
        TypeEntry::Union { first, count } => types_below(types, first, count, i),
        TypeEntry::Any
        | TypeEntry::Number
        | TypeEntry::NumberLiteral { .. }
        | TypeEntry::String
        | TypeEntry::CodeUnit(_)
        | TypeEntry::Boolean
        | TypeEntry::True
        | TypeEntry::False
        | TypeEntry::Undefined
        | TypeEntry::Null => true,
    }
}

// Whether the entries of parts are in order.
fn parts_in_order(types: &[TypeEntry], used: usize) -> bool
    ensures { Decides result (PartsInOrder types.now used) }
{
    (0..used).all(|i| is_orderly(types, i, entry_at(types, i)))
}

// Whether the entry at i can be that of an expression's type, whose parts stand below `used`.
fn is_head(types: &[TypeEntry], used: usize, i: usize) -> bool
    ensures { Decides result (Orderly types.now used (type_at types.now i) × OfType (type_at types.now i)) }
{
    is_orderly(types, used, entry_at(types, i)) && is_type(entry_at(types, i))
}

// Whether the entries of the expressions' types are in order.
fn heads_in_order(types: &[TypeEntry], used: usize, expressions: usize) -> bool
    ensures { Decides result (HeadsInOrder types.now used expressions) }
{
    (0..expressions).all(|k| is_head(types, used, head_of(k)))
}

// Whether the entries in use are in order.
fn in_order(checked: &Checked, types: &[TypeEntry]) -> bool
    ensures { Decides result (IsInOrder types.now checked.now.used checked.now.expressions) }
{
    parts_in_order(types, checked.used())
        && heads_in_order(types, checked.used(), checked.expressions())
}

// The entry that holds the type of an expression, by the expression's number.
pub fn type_of(checked: &Checked, types: &[TypeEntry], number: usize) -> Result<usize, Refusal>
    ensures { TypeTold types.now checked.now number result }
{
    if types.len() < TYPES {
        return Err(Reason::ShortTable.at(0));
    }
    if number >= checked.expressions() {
        return Err(Reason::NoExpression.at(0));
    }
    if !in_order(checked, types) {
        return Err(Reason::Damaged.at(0));
    }
    Ok(head_of(number))
}
