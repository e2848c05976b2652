// Trees that were altered between the read and the check.
use crate::desk::Desk;
use crate::told::{told_check, told_type};
use anyhow::bail;
use parser::symbols::{Leaf, Operator, Prefix};
use parser::tree::TreeEntry;
use std::alloc::{AllocError, Global};

// Its tree: 1, 2, their sum, 3, the product, the statement.
const SHEET: &[u8] = b"(1 + 2) * 3;";

fn token(leaf: Leaf, place: usize, len: usize) -> TreeEntry {
    TreeEntry::Leaf { leaf, place, len }
}

fn not(place: usize, operand: usize) -> TreeEntry {
    TreeEntry::Unary {
        operator: Prefix::Not,
        place,
        operand,
    }
}

fn sum(left: usize, right: usize) -> TreeEntry {
    TreeEntry::Binary {
        operator: Operator::Add,
        left,
        right,
    }
}

fn choice(test: usize, then: usize, other: usize) -> TreeEntry {
    TreeEntry::Choice { test, then, other }
}

fn ended(before: Option<usize>, expression: usize) -> TreeEntry {
    TreeEntry::Statement { before, expression }
}

// A check after one entry of the tree was altered.
fn tell_one(
    rt: &HostRuntime,
    desk: &mut Desk,
    name: &str,
    index: usize,
    entry: TreeEntry,
) -> anyhow::Result<()> {
    let Ok(reading) = desk.read(SHEET) else {
        bail!("a sheet was refused over full tables");
    };
    desk.set_tree(index, entry);
    let told = told_check(&desk.check(reading, SHEET));
    println!(rt; "entry {index} is {name}, check: {told}")?;
    Ok(())
}

fn tell_tokens(rt: &HostRuntime, desk: &mut Desk) -> anyhow::Result<()> {
    let cases = [
        ("blank", TreeEntry::Blank),
        ("a number behind the sheet", token(Leaf::Number, 12, 1)),
        ("a number over the sheet's end", token(Leaf::Number, 10, 3)),
        (
            "a number of the most bytes",
            token(Leaf::Number, 1, usize::MAX),
        ),
        ("the name ;", token(Leaf::Name, 11, 1)),
        ("null of no bytes", token(Leaf::Null, 11, 0)),
        ("a number of no bytes", token(Leaf::Number, 11, 0)),
        ("a string of no quotes", token(Leaf::Text, 1, 1)),
    ];
    for (name, entry) in cases {
        tell_one(rt, desk, name, 0, entry)?;
    }
    Ok(())
}

fn tell_parts(rt: &HostRuntime, desk: &mut Desk) -> anyhow::Result<()> {
    let cases = [
        ("a sum of itself", 2, sum(2, 1)),
        ("a sum of a later entry", 2, sum(0, 3)),
        ("an operator behind the sheet", 2, not(12, 0)),
        ("an operator before a later entry", 2, not(0, 3)),
        ("a sum of an entry past the table", 2, sum(0, usize::MAX)),
        ("a statement in a product", 3, ended(None, 0)),
        ("a choice", 4, choice(0, 1, 2)),
        ("a choice with itself", 4, choice(0, 1, 4)),
        ("no statement at the end", 5, not(0, 4)),
        ("a statement before itself", 5, ended(Some(5), 4)),
        ("a statement after an expression", 5, ended(Some(4), 3)),
        ("a statement of itself", 5, ended(None, 5)),
        ("a statement of a part", 5, ended(None, 2)),
        ("a sum that is not in use", 6, sum(4000, 4000)),
    ];
    for (name, index, entry) in cases {
        tell_one(rt, desk, name, index, entry)?;
    }
    Ok(())
}

// A reading that comes back goes with the tree as it was.
fn tell_mended(rt: &HostRuntime, desk: &mut Desk) -> anyhow::Result<()> {
    let Ok(reading) = desk.read(SHEET) else {
        bail!("a sheet was refused over full tables");
    };
    desk.set_tree(2, sum(2, 2));
    let Err((_, reading)) = desk.check(reading, SHEET) else {
        bail!("an altered table was not noticed");
    };
    desk.set_tree(2, sum(0, 1));
    let told = told_check(&desk.check(reading, SHEET));
    println!(rt; "the reading that came back, and the tree mended, check: {told}")?;
    Ok(())
}

pub fn tell(rt: &HostRuntime, desk: &mut Desk) -> anyhow::Result<()> {
    tell_tokens(rt, desk)?;
    tell_parts(rt, desk)?;
    tell_mended(rt, desk)
}

// What each entry of a shared graph is over the one below.
#[derive(Clone, Copy)]
enum Shape {
    Not,
    Sum,
    Choice,
}

impl Shape {
    fn over(self, below: usize) -> TreeEntry {
        match self {
            Shape::Not => not(0, below),
            Shape::Sum => sum(below, below),
            Shape::Choice => choice(below, below, below),
        }
    }
}

// A sheet that is a sum of ones, and the token that is at the bottom of the graphs over it.
#[derive(Drop)]
struct Ground {
    sheet: Vec<u8>,
    token: TreeEntry,
}

impl Ground {
    // A sum of so many ones, with a text behind it in a comment.
    fn new(heap: Global, ones: usize, leaf: Leaf, comment: &[u8]) -> Result<Self, AllocError> {
        let mut sheet = Vec::new(heap);
        for _ in 1..ones {
            sheet.extend_from_slice(b"1+")?;
        }
        sheet.extend_from_slice(b"1;//")?;
        let place = sheet.len();
        sheet.extend_from_slice(comment)?;
        let token = token(leaf, place, comment.len());
        Ok(Ground { sheet, token })
    }

    // A check over a graph: the token at the bottom, and each entry over it has all its parts in the one below.
    fn tell(
        &self,
        rt: &HostRuntime,
        desk: &mut Desk,
        name: &str,
        shape: Shape,
        deep: usize,
    ) -> anyhow::Result<()> {
        let Ok(reading) = desk.read(&self.sheet) else {
            bail!("a sheet was refused over full tables");
        };
        let Some(last) = reading.last() else {
            bail!("a sheet has no statement");
        };
        desk.tree.fill(self.token);
        for index in 1..deep.saturating_add(1) {
            desk.set_tree(index, shape.over(index.saturating_sub(1)));
        }
        desk.set_tree(last, ended(None, deep));
        let answer = desk.check(reading, &self.sheet);
        println!(rt; "{name}, {deep} deep, check: {}", told_check(&answer))?;
        let Ok(checked) = answer else {
            return Ok(());
        };
        for number in [
            checked.expressions().saturating_sub(1),
            checked.expressions(),
        ] {
            let told = told_type(desk.type_of(&checked, number));
            println!(rt; "{name}, {deep} deep, type of {number}: {told}")?;
        }
        Ok(())
    }
}

// Graphs over a tree of 4,096 entries. A walk takes 8,192 steps at most, so of the larger ones it counts what it came to.
pub fn tell_shared(rt: &HostRuntime, desk: &mut Desk) -> anyhow::Result<()> {
    let one = Ground::new(rt.alloc(), 2048, Leaf::Number, b"1")?;
    one.tell(rt, desk, "not", Shape::Not, 4094)?;
    for deep in [11, 12, 13, 4094] {
        one.tell(rt, desk, "shared sums", Shape::Sum, deep)?;
    }
    for deep in [7, 8, 4094] {
        one.tell(rt, desk, "shared choices", Shape::Choice, deep)?;
    }
    Ok(())
}

// Graphs over long texts that no token of the sheet has.
pub fn tell_long(rt: &HostRuntime, desk: &mut Desk) -> anyhow::Result<()> {
    let mut text = vec![in rt.alloc(); b'0'; 16_350]?;
    let zero = Ground::new(rt.alloc(), 8, Leaf::Number, &text)?;
    zero.tell(rt, desk, "shared choices of a long zero", Shape::Choice, 8)?;
    for (name, head) in [("a long one", b"1."), ("a long exponent", b"0e")] {
        for (slot, byte) in text.iter_mut().zip(head) {
            *slot = *byte;
        }
        let number = Ground::new(rt.alloc(), 8, Leaf::Number, &text)?;
        println!(rt; "over {name}:")?;
        number.tell(rt, desk, "shared choices", Shape::Choice, 8)?;
    }
    text.fill(b'a');
    let name = Ground::new(rt.alloc(), 8, Leaf::Name, &text)?;
    name.tell(rt, desk, "shared sums of a long name", Shape::Sum, 12)?;
    let string = Ground::new(rt.alloc(), 8, Leaf::Text, &text)?;
    string.tell(rt, desk, "shared sums of a long string", Shape::Sum, 12)
}
