// Whether the entries of a tree table are in order.
ghost use Rattle.std.specs.Prelude.{◌≡◌, ◌+◌, ◌<◌, ◌≤◌, Decides};
ghost use Rattle.parser.specs.Table.{AllProper, Earlier, Expression, Part, Proper, tree_at};
ghost use Rattle.checker.specs.Checks.{TreeInOrder};
ghost use Rattle.checker.specs.Entries.{StatementEntry};

use parser::reading::Read;
use parser::tree::TreeEntry;
use types::compare::run_below;

// The entry at an index. A table of any length may be asked: past its end an entry is blank, which is never in order.
pub fn entry_at(tree: &[TreeEntry], i: usize) -> TreeEntry
    ensures { result ≡ tree_at tree.now i }
{
    tree.get(i).copied().unwrap_or(TreeEntry::Blank)
}

#[tactic(auto, using(crate::proofs::Orderly::an_expression))]
fn is_expression(e: TreeEntry) -> bool
    ensures { Decides result (Expression e) }
{
    matches!(
        e,
        TreeEntry::Leaf { .. }
            | TreeEntry::Unary { .. }
            | TreeEntry::Binary { .. }
            | TreeEntry::Choice { .. }
    )
}

fn is_statement(e: TreeEntry) -> bool
    ensures { Decides result (StatementEntry e) }
{
    matches!(e, TreeEntry::Statement { .. })
}

// Whether entry j can be a part of entry i.
fn is_part(tree: &[TreeEntry], i: usize, j: usize) -> bool
    ensures { Decides result (Part tree.now i j) }
{
    j < i && is_expression(entry_at(tree, j))
}

// Whether entry i can have this index of the statement before it, if there is one.
fn is_earlier(tree: &[TreeEntry], i: usize, before: Option<usize>) -> bool
    ensures { Decides result (Earlier tree.now i before) }
{
    before.is_none_or(|k| k < i && is_statement(entry_at(tree, k)))
}

// Whether `len` bytes from `place` on, and at least one byte, lie in the sheet.
fn lies_in(sheet_len: usize, place: usize, len: usize) -> bool
    ensures { Decides result ((place < sheet_len) × (place + len ≤ sheet_len)) }
{
    place < sheet_len && run_below(place, len, sheet_len)
}

// Whether entry i is in order.
fn is_proper(sheet_len: usize, tree: &[TreeEntry], i: usize) -> bool
    ensures { Decides result (Proper sheet_len tree.now i (tree_at tree.now i)) }
{
    match entry_at(tree, i) {
        TreeEntry::Blank => false,
        TreeEntry::Leaf { place, len, .. } => lies_in(sheet_len, place, len),
        TreeEntry::Unary { place, operand, .. } => {
            place < sheet_len && is_part(tree, i, operand)
        }
        TreeEntry::Binary { left, right, .. } => {
            is_part(tree, i, left) && is_part(tree, i, right)
        }
        TreeEntry::Choice { test, then, other } => {
            is_part(tree, i, test) && is_part(tree, i, then) && is_part(tree, i, other)
        }
        TreeEntry::Statement { before, expression } => {
            is_earlier(tree, i, before) && is_part(tree, i, expression)
        }
    }
}

// Whether the first `used` entries are in order, over a sheet of this size.
fn proper(sheet_len: usize, tree: &[TreeEntry], used: usize) -> bool
    ensures { Decides result (AllProper sheet_len tree.now used) }
{
    (0..used).all(|i| is_proper(sheet_len, tree, i))
}

// Whether the entries in use are in order, and the last of them, if there is one, is a statement.
pub fn tree_in_order(sheet_len: usize, tree: &[TreeEntry], reading: &Read) -> bool
    ensures { Decides result (TreeInOrder sheet_len tree.now reading.now) }
{
    proper(sheet_len, tree, reading.used()) && is_earlier(tree, reading.used(), reading.last())
}
