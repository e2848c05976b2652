// Tables that are full of drawn entries.
use crate::desk::Desk;
use crate::draw::Draw;
use crate::tally::Tally;
use crate::told::{told_check, told_read, told_type};
use checker::stage::Checked;
use parser::tables::TYPES;

// How many draws are made of each kind, and how many of them are told one by one.
const DRAWS: u64 = 200;

const SHOWN: u64 = 3;

// Of how many expressions a type is asked for.
const ASKED: usize = 16;

const SHEETS: [(&str, &[u8]); 6] = [
    ("one", b"1;"),
    ("a choice", b"(true ? 1 : 'abc') + 2; par; !1;"),
    ("strings", b"'abc' + 'de'; true ? 'abc' : math_PI; display;"),
    ("no statement", b""),
    ("no program", b"1 + ;"),
    ("no token", b"'abc"),
];

// Which tables are filled before the check.
#[derive(Clone, Copy)]
enum Filled {
    // all but the tree
    Others,
    // the tree, with entries of any kind and any index
    Tree,
    // the tree, with entries of any kind and lower indexes
    LowTree,
    // the tree, with expressions of lower parts
    Graph,
}

impl Filled {
    fn fill(self, desk: &mut Desk, seed: u64, len: usize, last: usize) {
        let mut draw = Draw::new(seed, matches!(self, Filled::Others | Filled::Tree));
        match self {
            Filled::Others => {
                desk.draw_stacks(&mut draw);
                desk.draw_types(&mut draw, 8192);
                desk.draw_findings(&mut draw);
            }
            Filled::Tree | Filled::LowTree => desk.draw_tree(&mut draw, len),
            Filled::Graph => desk.draw_graph(&mut draw, last, len),
        }
    }
}

// How the types are filled before a type is asked for.
#[derive(Clone, Copy)]
enum Drawn {
    // entries of any kind and any index
    Any,
    // entries of any kind, with parts among the first four
    Low,
    // types with parts among the first four
    Whole,
}

impl Drawn {
    fn fill(self, desk: &mut Desk, seed: u64) {
        let mut draw = Draw::new(seed, matches!(self, Drawn::Any));
        match self {
            Drawn::Any => desk.draw_types(&mut draw, 8192),
            Drawn::Low => desk.draw_types(&mut draw, 4),
            Drawn::Whole => desk.draw_whole_types(&mut draw, 4),
        }
    }
}

// Whether the list and the types of the expressions are the same over both tables.
fn same_left(a: &mut Desk, b: &mut Desk, of_a: &Checked, of_b: &Checked) -> bool {
    let mut same = a.findings.as_slice() == b.findings.as_slice();
    let count = of_a.expressions();
    // a call for each of some thousand types would take long, so the entries past the first ones are compared alone
    for number in 0..count.min(ASKED) {
        let left = told_type(a.type_of(of_a, number));
        same = same && left == told_type(b.type_of(of_b, number));
    }
    for index in TYPES.saturating_sub(count)..TYPES {
        same = same && a.types.get(index) == b.types.get(index);
    }
    same
}

// Reads and checks over clean tables and over filled ones. Whether both answer and leave the same.
fn is_same(clean: &mut Desk, filled: &mut Desk, seed: u64, sheet: &[u8]) -> bool {
    clean.clear();
    Filled::Tree.fill(filled, seed, sheet.len(), 0);
    Filled::Others.fill(filled, seed, sheet.len(), 0);
    let (a, b) = (clean.read(sheet), filled.read(sheet));
    if told_read(&a) != told_read(&b) {
        return false;
    }
    let (Ok(a), Ok(b)) = (a, b) else {
        return true;
    };
    let (a, b) = (clean.check(a, sheet), filled.check(b, sheet));
    if told_check(&a) != told_check(&b) {
        return false;
    }
    match (a, b) {
        (Ok(a), Ok(b)) => same_left(clean, filled, &a, &b),
        _ => true,
    }
}

// Reads a sheet over drawn tables, and checks it.
fn tell_read(
    rt: &HostRuntime,
    clean: &mut Desk,
    filled: &mut Desk,
    name: &str,
    sheet: &[u8],
) -> anyhow::Result<()> {
    clean.clear();
    let told = told_read(&clean.read(sheet));
    let mut same = 0usize;
    for seed in 1..DRAWS + 1 {
        if is_same(clean, filled, seed, sheet) {
            same = same.saturating_add(1);
        }
    }
    println!(rt; "{name}, clean tables: {told}")?;
    println!(rt; "{name}, drawn tables: the same {same} of {DRAWS} times")?;
    Ok(())
}

// Reads a sheet, fills tables, and checks it.
fn tell_checks(
    rt: &HostRuntime,
    desk: &mut Desk,
    name: &str,
    sheet: &[u8],
    kind: &str,
    filled: Filled,
) -> anyhow::Result<()> {
    let mut tally = Tally::new();
    for seed in 1..DRAWS + 1 {
        desk.clear();
        let Ok(reading) = desk.read(sheet) else {
            return Ok(());
        };
        filled.fill(desk, seed, sheet.len(), reading.last().unwrap_or(0));
        let told = told_check(&desk.check(reading, sheet));
        tally.add(told);
        if seed <= SHOWN {
            println!(rt; "{name}, {kind}, draw {seed}, check: {told}")?;
        }
    }
    println!(rt; "{name}, {kind}, {DRAWS} checks:{tally}")?;
    Ok(())
}

// Reads and checks a sheet, fills the types, and asks for a type.
fn tell_types(
    rt: &HostRuntime,
    desk: &mut Desk,
    name: &str,
    sheet: &[u8],
    kind: &str,
    drawn: Drawn,
) -> anyhow::Result<()> {
    let mut tally = Tally::new();
    for seed in 1..DRAWS + 1 {
        desk.clear();
        let Ok(reading) = desk.read(sheet) else {
            return Ok(());
        };
        let Ok(checked) = desk.check(reading, sheet) else {
            return Ok(());
        };
        drawn.fill(desk, seed);
        let told = told_type(desk.type_of(&checked, 0));
        tally.add(told);
        tally.add(told_type(desk.type_of(&checked, checked.expressions())));
        if seed <= SHOWN {
            println!(rt; "{name}, {kind}, draw {seed}, type of 0: {told}")?;
        }
    }
    println!(rt; "{name}, {kind}, {DRAWS} times the type of 0 and one past the end:{tally}")?;
    Ok(())
}

// What is told of one sheet.
fn tell_sheet(
    rt: &HostRuntime,
    clean: &mut Desk,
    filled: &mut Desk,
    name: &str,
    sheet: &[u8],
) -> anyhow::Result<()> {
    tell_read(rt, clean, filled, name, sheet)?;
    let kinds = [
        ("stacks and types drawn", Filled::Others),
        ("any tree", Filled::Tree),
        ("a low tree", Filled::LowTree),
        ("a graph", Filled::Graph),
    ];
    for (kind, tables) in kinds {
        tell_checks(rt, filled, name, sheet, kind, tables)?;
    }
    let kinds = [
        ("any types", Drawn::Any),
        ("low types", Drawn::Low),
        ("whole types", Drawn::Whole),
    ];
    for (kind, types) in kinds {
        tell_types(rt, filled, name, sheet, kind, types)?;
    }
    Ok(())
}

pub fn tell(rt: &HostRuntime, clean: &mut Desk, filled: &mut Desk) -> anyhow::Result<()> {
    for (name, sheet) in SHEETS {
        tell_sheet(rt, clean, filled, name, sheet)?;
    }
    let mut long = Vec::new(rt.alloc());
    for _ in 0..2047 {
        long.extend_from_slice(b"1+")?;
    }
    long.extend_from_slice(b"1;")?;
    tell_sheet(rt, clean, filled, "2,048 ones", &long)
}
