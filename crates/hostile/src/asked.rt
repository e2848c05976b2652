// Types that were altered between the check and the call for a type.
use crate::desk::Desk;
use crate::told::{told_check, told_type};
use anyhow::bail;
use checker::stage::Checked;
use std::alloc::{AllocError, Global};
use types::entries::TypeEntry;

// Its types are true, 1, "a" and 1 | "a". The unit of "a" is entry 0.
const SMALL: &[u8] = b"true ? 1 : 'a';";

// Where the type of the first expression stands.
const HEAD: usize = 8191;

fn checked_of(desk: &mut Desk, sheet: &[u8]) -> anyhow::Result<Checked> {
    let Ok(reading) = desk.read(sheet) else {
        bail!("a sheet was refused over full tables");
    };
    match desk.check(reading, sheet) {
        Ok(checked) => Ok(checked),
        Err(_) => bail!("a reading was refused over full tables"),
    }
}

// A call after one entry of the types was altered.
fn tell_one(
    rt: &HostRuntime,
    desk: &mut Desk,
    name: &str,
    index: usize,
    entry: TypeEntry,
) -> anyhow::Result<()> {
    let checked = checked_of(desk, SMALL)?;
    desk.set_type(index, entry);
    let told = told_type(desk.type_of(&checked, 0));
    println!(rt; "entry {index} is {name}, type of 0: {told}")?;
    Ok(())
}

fn text(first: usize, count: usize) -> TypeEntry {
    TypeEntry::StringLiteral { first, count }
}

fn function(first: usize, count: usize) -> TypeEntry {
    TypeEntry::Function { first, count }
}

fn union_of(first: usize, count: usize) -> TypeEntry {
    TypeEntry::Union { first, count }
}

fn list(element: usize) -> TypeEntry {
    TypeEntry::List { element }
}

fn pair(head: usize, tail: usize) -> TypeEntry {
    TypeEntry::Pair { head, tail }
}

fn tell_parts(rt: &HostRuntime, desk: &mut Desk) -> anyhow::Result<()> {
    let cases = [
        ("blank", 0, TypeEntry::Unused),
        ("no unit", 0, TypeEntry::Number),
        ("another unit", 0, TypeEntry::CodeUnit(7)),
        ("a list that is not in use", 4000, list(usize::MAX)),
    ];
    for (name, index, entry) in cases {
        tell_one(rt, desk, name, index, entry)?;
    }
    Ok(())
}

fn tell_heads(rt: &HostRuntime, desk: &mut Desk) -> anyhow::Result<()> {
    let most = usize::MAX;
    let cases = [
        ("blank", TypeEntry::Unused),
        ("a unit", TypeEntry::CodeUnit(97)),
        ("any", TypeEntry::Any),
        ("the string of a unit", text(0, 1)),
        ("the empty string from far", text(most, 0)),
        ("a string past the table", text(most, most)),
        ("a function past the table", function(0, most)),
        ("a function of a unit", function(0, 0)),
        ("a list of a unit", list(0)),
        ("a list of a later entry", list(HEAD)),
        ("a pair of later entries", pair(most, most)),
        ("a union of none", union_of(0, 0)),
        ("a union with a unit", union_of(0, 1)),
    ];
    for (name, entry) in cases {
        tell_one(rt, desk, name, HEAD, entry)?;
    }
    Ok(())
}

// What each entry is over all those below.
#[derive(Clone, Copy)]
enum Shape {
    Pairs,
    Lists,
    Functions,
    Unions,
    Strings,
}

impl Shape {
    fn over(self, index: usize) -> TypeEntry {
        let Some(below) = index.checked_sub(1) else {
            return self.bottom();
        };
        match self {
            Shape::Pairs => pair(below, below),
            Shape::Lists => list(below),
            Shape::Functions => function(0, below),
            Shape::Unions => union_of(0, index),
            // units in the lower half, strings of them all above it
            Shape::Strings if index < 4080 => TypeEntry::CodeUnit(97),
            Shape::Strings => text(0, 4080),
        }
    }

    fn bottom(self) -> TypeEntry {
        match self {
            Shape::Strings => TypeEntry::CodeUnit(97),
            _ => TypeEntry::Number,
        }
    }
}

// 32 strings of 255 units. Their load is 8,192; 8,160 entries are parts, and the others hold the types.
fn strings(heap: Global) -> Result<Vec<u8>, AllocError> {
    let units = vec![in heap; b'a'; 255]?;
    let mut sheet = Vec::new(heap);
    for _ in 0..32 {
        sheet.push(b'"')?;
        sheet.extend_from_slice(&units)?;
        sheet.extend_from_slice(b"\";")?;
    }
    Ok(sheet)
}

// Fills the types, and asks for the first one and the last one.
fn tell_shape(
    rt: &HostRuntime,
    desk: &mut Desk,
    sheet: &[u8],
    name: &str,
    shape: Shape,
) -> anyhow::Result<()> {
    let checked = checked_of(desk, sheet)?;
    for (index, slot) in desk.types.iter_mut().enumerate() {
        *slot = shape.over(index.min(8160));
    }
    for number in [0, 31, 32] {
        let told = told_type(desk.type_of(&checked, number));
        println!(rt; "{name} over all below, type of {number}: {told}")?;
    }
    desk.set_type(8159, TypeEntry::List { element: 8159 });
    let told = told_type(desk.type_of(&checked, 31));
    println!(rt; "{name}, and one of itself, type of 31: {told}")?;
    Ok(())
}

pub fn tell(rt: &HostRuntime, desk: &mut Desk) -> anyhow::Result<()> {
    tell_parts(rt, desk)?;
    tell_heads(rt, desk)?;
    let sheet = strings(rt.alloc())?;
    let Ok(reading) = desk.read(&sheet) else {
        bail!("a sheet was refused over full tables");
    };
    let told = told_check(&desk.check(reading, &sheet));
    println!(rt; "32 strings of 255 units, check: {told}")?;
    let shapes = [
        ("pairs", Shape::Pairs),
        ("lists", Shape::Lists),
        ("functions", Shape::Functions),
        ("unions", Shape::Unions),
        ("strings", Shape::Strings),
    ];
    for (name, shape) in shapes {
        tell_shape(rt, desk, &sheet, name, shape)?;
    }
    Ok(())
}
