// Tables that are one entry short, and numbers that no expression has.
use crate::desk::{Desk, FULL, Sizes};
use crate::told::{told_check, told_read, told_type};
use anyhow::bail;
use parser::tree::TreeEntry;
use std::alloc::Global;
use types::entries::TypeEntry;

const SHEET: &[u8] = b"1 + 2;";

// A read and a check over tables of these sizes. The check is of a sheet that was read over full tables, and is made again over
// full tables with the reading that it gave back.
fn tell_sizes(rt: &HostRuntime, desk: &mut Desk, name: &str, sizes: Sizes) -> anyhow::Result<()> {
    desk.lent = sizes;
    let told = told_read(&desk.read(SHEET));
    println!(rt; "{name} one entry short, read: {told}")?;
    desk.lent = FULL;
    let Ok(reading) = desk.read(SHEET) else {
        bail!("a sheet was refused over full tables");
    };
    desk.lent = sizes;
    let answer = desk.check(reading, SHEET);
    println!(rt; "{name} one entry short, check: {}", told_check(&answer))?;
    desk.lent = FULL;
    let Err((_, reading)) = answer else {
        return Ok(());
    };
    let told = told_check(&desk.check(reading, SHEET));
    println!(rt; "the same reading over full tables, check: {told}")?;
    Ok(())
}

fn tell_all_sizes(rt: &HostRuntime, desk: &mut Desk) -> anyhow::Result<()> {
    let mut sizes = FULL;
    sizes.tree = FULL.tree - 1;
    tell_sizes(rt, desk, "the tree", sizes)?;
    sizes = FULL;
    sizes.operators = FULL.operators - 1;
    tell_sizes(rt, desk, "the first stack", sizes)?;
    sizes = FULL;
    sizes.frames = FULL.frames - 1;
    tell_sizes(rt, desk, "the second stack", sizes)?;
    sizes = FULL;
    sizes.types = FULL.types - 1;
    tell_sizes(rt, desk, "the types", sizes)
}

// A short table is told before all else.
fn tell_order(rt: &HostRuntime, desk: &mut Desk, heap: Global) -> anyhow::Result<()> {
    let long = vec![in heap; b'#'; 16_385]?;
    let told = told_read(&desk.read(&long));
    println!(rt; "a sheet of 16,385 bytes, read: {told}")?;
    let Ok(reading) = desk.read(SHEET) else {
        bail!("a sheet was refused over full tables");
    };
    desk.set_tree(0, TreeEntry::Blank);
    desk.lent.tree = FULL.tree - 1;
    let told = told_read(&desk.read(&long));
    println!(rt; "the same, the tree one entry short, read: {told}")?;
    let told = told_check(&desk.check(reading, SHEET));
    println!(rt; "a blank entry, the tree one entry short, check: {told}")?;
    desk.lent = FULL;
    Ok(())
}

// Asks for types of three expressions, by numbers that they have and others.
fn tell_numbers(rt: &HostRuntime, desk: &mut Desk) -> anyhow::Result<()> {
    let Ok(reading) = desk.read(SHEET) else {
        bail!("a sheet was refused over full tables");
    };
    let Ok(checked) = desk.check(reading, SHEET) else {
        bail!("a reading was refused over full tables");
    };
    for number in [0, 2, 3, 8191, 8192, usize::MAX] {
        let told = told_type(desk.type_of(&checked, number));
        println!(rt; "type of {number}: {told}")?;
    }
    for number in [0, 3] {
        desk.lent.types = FULL.types - 1;
        let told = told_type(desk.type_of(&checked, number));
        println!(rt; "the types one entry short, type of {number}: {told}")?;
        desk.lent = FULL;
    }
    desk.set_type(8191, TypeEntry::Unused);
    for number in [2, 3] {
        let told = told_type(desk.type_of(&checked, number));
        println!(rt; "a blank entry, type of {number}: {told}")?;
    }
    Ok(())
}

pub fn tell(rt: &HostRuntime, desk: &mut Desk) -> anyhow::Result<()> {
    tell_all_sizes(rt, desk)?;
    tell_order(rt, desk, rt.alloc())?;
    tell_numbers(rt, desk)
}
