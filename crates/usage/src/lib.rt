// A sheet is read, checked, and asked for the type of its first expression. The calls stand one by one, since tests/misuse
// alters them.
#![tactic(auto)]

use checker::asked::type_of;
use checker::check::check;
use checker::finding::Finding;
use parser::read;
use parser::tables::Tables;
use parser::tree::TreeEntry;
use registers::empty::Empty;
use registers::library::Library;

fn first_type(
    sheet: &[u8],
    tree: &mut [TreeEntry],
    tables: &mut Tables<'_>,
    findings: &mut [Finding],
) -> Option<usize> {
    let reading = read(sheet, tree, tables).ok()?;
    let checked = check(reading, sheet, tree, &Library, &Empty, tables, findings).ok()?;
    type_of(&checked, tables.types, 0).ok()
}
