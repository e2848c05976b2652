// Checking a sheet that was read.
ghost use Rattle.std.specs.Prelude.{◌≡◌, length};
ghost use Rattle.parser.specs.Lending.{Lent, sizes_of};
ghost use Rattle.checker.specs.Checks.{Checks};
ghost use Rattle.checker.specs.Walks.{Walks};

use crate::finding::{Finding, blank_out};
use crate::first::First;
use crate::proper::tree_in_order;
use crate::stage::Checked;
use crate::store::{Store, TooHeavy};
use crate::walk::{Source, Walk};
use lexer::reasons::Reason;
use lexer::refusal::Refusal;
use parser::reading::Read;
use parser::tables::Tables;
use parser::tree::{OperatorEntry, TreeEntry, WalkFrame};
use registers::register::{ROOM, Register};
use stack::Stack;
use types::entries::TypeEntry;

// Walks over the statement at an index, if there is one, and those before it. It takes slices: a proof loses sight of a table
// that is lent on inside a struct.
fn walk_over<'a, R: Register>(
    source: &Source<R>,
    last: Option<usize>,
    operators: &'a mut [OperatorEntry],
    frames: &'a mut [WalkFrame],
    types: &mut [TypeEntry],
    findings: &mut [Finding],
) -> Result<Checked, TooHeavy>
    ensures { Walks source.now.sheet.now (R.Register.meaning source.now.names.now) source.now.tree.now last (length operators.old) (length frames.old) (length types.old) findings.old result findings.new types.new }
{
    let mut w = Walk {
        frames: Stack::new(frames),
        operators: Stack::new(operators),
        room: [TypeEntry::Unused; ROOM],
    };
    let mut found = First {
        slots: findings,
        count: 0,
    };
    let mut store = Store {
        entries: types,
        used: 0,
        count: 0,
        load: 0,
    };
    w.frames.push(WalkFrame::Statements(last));
    w.run(source, &mut found, &mut store)?;
    Ok(Checked::new(found.count, store.count, store.used))
}

// Checks a sheet that was read, in the scope of the first register; the second one is asked for what a sheet imports, and
// no sheet imports anything yet. A refused check gives the reading back, and its findings list is blank. What the stacks hold
// after is free, and so is what the type entries that are not in use hold, and after a refusal all of them.
pub fn check<F: Register, S: Register>(
    reading: Read,
    sheet: &[u8],
    tree: &[TreeEntry],
    first: &F,
    second: &S,
    tables: &mut Tables<'_>,
    findings: &mut [Finding],
) -> Result<Checked, (Refusal, Read)>
    ensures checks { Checks (sizes_of (length tree.now) tables.old) sheet.now tree.now reading (F.Register.meaning first.now) result findings.new tables.new.types.now }
    ensures lent { Lent tables.old tables.new }
{
    blank_out(findings);
    if tables.is_short(tree.len()) {
        return Err((Reason::ShortTable.at(0), reading));
    }
    if !tree_in_order(sheet.len(), tree, &reading) {
        return Err((Reason::Damaged.at(0), reading));
    }
    let source = Source {
        sheet,
        tree,
        names: first,
    };
    let walked = walk_over(
        &source,
        reading.last(),
        tables.operators,
        tables.frames,
        tables.types,
        findings,
    );
    if walked.is_err() {
        blank_out(findings);
    }
    walked.map_err(|_| (Reason::HeavySheet.at(0), reading))
}
