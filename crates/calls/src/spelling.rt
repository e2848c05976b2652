// Types as words, in prefix form.
use anyhow::bail;
use std::fmt::Write;
use types::entries::{Root, TypeEntry};

// The word of a type that is one word. No Display: a type with parts has none, and its parts stand in a table.
fn word(entry: TypeEntry) -> &'static str {
    match entry {
        TypeEntry::Any => "any",
        TypeEntry::Number => "number",
        TypeEntry::String => "string",
        TypeEntry::Boolean => "boolean",
        TypeEntry::True => "true",
        TypeEntry::False => "false",
        TypeEntry::Undefined => "undefined",
        TypeEntry::Null => "null",
        _ => "unused",
    }
}

// Writes the count of code units, and each of them.
fn spell_units(
    out: &mut String,
    types: &[TypeEntry],
    first: usize,
    count: usize,
) -> anyhow::Result<()> {
    write!(out, " text {count}")?;
    for entry in types.iter().skip(first).take(count) {
        if let TypeEntry::CodeUnit(unit) = *entry {
            write!(out, " {unit}")?;
        }
    }
    Ok(())
}

// Writes what stands before the parts of a type.
fn spell_head(out: &mut String, types: &[TypeEntry], entry: TypeEntry) -> anyhow::Result<()> {
    match entry {
        TypeEntry::NumberLiteral { digits, exponent } => {
            write!(out, " literal {digits} {exponent}")?
        }
        TypeEntry::StringLiteral { first, count } => spell_units(out, types, first, count)?,
        TypeEntry::Function { count, .. } => write!(out, " function {count}")?,
        TypeEntry::Pair { .. } => write!(out, " pair")?,
        TypeEntry::List { .. } => write!(out, " list")?,
        TypeEntry::Union { count, .. } => write!(out, " union {count}")?,
        _ => write!(out, " {}", word(entry))?,
    }
    Ok(())
}

// Puts the indexes from `first` on, `count` of them, on the stack, the first on top.
fn push_run(pending: &mut Vec<usize>, first: usize, count: usize) -> anyhow::Result<()> {
    Ok(pending.extend((first..first.saturating_add(count)).rev())?)
}

// Puts the parts of a type on the stack, the first on top.
fn push_parts(pending: &mut Vec<usize>, entry: TypeEntry) -> anyhow::Result<()> {
    match entry {
        TypeEntry::Function { first, count } => push_run(pending, first, count.saturating_add(1)),
        TypeEntry::Pair { head, tail } => Ok(pending.extend([tail, head])?),
        TypeEntry::List { element } => Ok(pending.push(element)?),
        TypeEntry::Union { first, count } => push_run(pending, first, count),
        _ => Ok(()),
    }
}

// Writes the type at an index, a space before each word. `pending` is a stack to work with. The parts are counted, since over
// entries out of order they need not end; a type of a checked sheet has no more of them than its load.
pub fn spell(
    out: &mut String,
    pending: &mut Vec<usize>,
    types: &[TypeEntry],
    index: usize,
) -> anyhow::Result<()> {
    pending.clear();
    pending.push(index)?;
    for _ in 0..types.len() {
        let Some(next) = pending.pop() else {
            return Ok(());
        };
        let entry = Root::at(types, next).entry;
        spell_head(out, types, entry)?;
        push_parts(pending, entry)?;
    }
    bail!("the parts of a type do not end")
}
