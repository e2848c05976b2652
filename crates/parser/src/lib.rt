// Reads a sheet into a table of tree entries.
#![tactic(auto)]

ghost use Rattle.std.specs.Prelude.{length};
ghost use Rattle.parser.specs.Reading.{Reads};
ghost use Rattle.parser.specs.Lending.{Lent, sizes_of};

mod builder;
mod parse;
pub mod reading;
pub mod symbols;
pub mod tables;
mod tokens;
pub mod tree;

use crate::parse::parse;
use crate::tables::Tables;
use crate::tree::TreeEntry;
use lexer::reasons::Reason;
use lexer::refusal::Refusal;

// Reads a sheet into the tree table. The other tables are those that a check of the sheet takes, and what they hold after
// is free. Each call that takes them says that they come back, as long as they were (`lent`): of loans in a struct that
// is lent, a proof knows only what the call's clauses tell. Inlined, so that a caller that makes the tables need not fill
// those whose lengths alone are read.
#[inline(always)]
#[tactic(auto, using(crate::proofs::Faults::told_first))]
pub fn read(
    sheet: &[u8],
    tree: &mut [TreeEntry],
    tables: &mut Tables<'_>,
) -> Result<reading::Read, Refusal>
    ensures reads { Reads (sizes_of (length tree.old) tables.old) sheet.now tree.new result }
    ensures lent { Lent tables.old tables.new }
{
    if tables.is_short(tree.len()) {
        return Err(Reason::ShortTable.at(0));
    }
    parse(sheet, tree, tables.operators)
}
