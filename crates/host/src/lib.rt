// The calls of a host that is written in C: numbers and byte slices alone, over tables on the stack.
#![tactic(auto)]

ghost use Rattle.std.specs.Prelude.{◌≡◌, ◌-◌, ◌/◌, ◌≤◌, min, ◌++◌, length, take};
ghost use Rattle.lexer.specs.Refusals.{number_of};
ghost use Rattle.host.specs.Layout.{word, rows, replaced};
ghost use Rattle.host.specs.Answers.{ReadAnswers, CheckAnswers};

mod layout;

use crate::layout::{HEAD, WORD, put, put_findings};
use checker::finding::{BLANK, Finding};
use checker::run::read_and_check;
use checker::stage::Checked;
use lexer::refusal::Refusal;
use parser::read;
use parser::tables::{ENTRIES, TYPES, Tables};
use parser::tree::{OperatorEntry, TreeEntry, WalkFrame};
use registers::empty::Empty;
use registers::library::Library;
use types::entries::TypeEntry;

// The answer where `out` has no room for one: C is given numbers alone.
const NO_ROOM: u32 = 1;

// How many findings are listed at most. All are counted.
const FINDINGS: usize = 4096;

// The number of a refusal. Its place goes into the first four bytes of `out`.
fn refused(out: &mut [u8], e: Refusal) -> u32
    requires { 4 ≤ length out.old }
    ensures written { out.new ≡ replaced out.old 0 (word e.place) }
    ensures number { result ≡ number_of e.reason }
{
    put(out, 0, e.place);
    u32::from(e.reason.number())
}

// The answer to a sheet that was checked, with the findings that were listed.
fn checked(out: &mut [u8], c: &Checked, findings: &[Finding]) -> u32
    requires { 8 ≤ length out.old }
    ensures written { out.new ≡ replaced out.old 0 (word c.now.count ++ (word c.now.expressions ++ rows (take (min (min c.now.count (length findings.now)) ((length out.old - 8) / 8)) findings.now))) }
    ensures number { result ≡ 0 }
{
    let count = c.count();
    let expressions = c.expressions();
    put(out, 0, count);
    put(out, WORD, expressions);
    put_findings(out, findings, count);
    0
}

// Reads a sheet. The answer is 0 where it is a program, and nothing is written then; else it is the number of the refusal,
// and the first four bytes of `out` are its place. Where `out` has under 8 bytes the answer is 1, and nothing is written.
pub fn sheet_read(sheet: &[u8], out: &mut [u8]) -> u32
    ensures { ReadAnswers sheet.now out.old out.new result }
{
    if out.len() < HEAD {
        return NO_ROOM;
    }
    // made here and in `sheet_check`: a struct of four arrays that a function gives back is filled twice
    let mut tree = [TreeEntry::Blank; ENTRIES];
    let mut operators = [OperatorEntry::Blank; ENTRIES];
    let mut frames = [WalkFrame::Blank; ENTRIES];
    let mut types = [TypeEntry::Unused; TYPES];
    let mut lent = Tables {
        operators: &mut operators,
        frames: &mut frames,
        types: &mut types,
    };
    // a match: C is given a number in either case
    match read(sheet, &mut tree, &mut lent) {
        Ok(_) => 0,
        Err(e) => refused(out, e),
    }
}

// Reads a sheet, and checks it by the library. The answer is 0 where it is checked: the first four bytes of `out` are then the
// count of its findings, the next four that of its expressions, and the first findings follow, as many as have room, each as
// its kind and its place. Else the answer is the number of the refusal, and the first four bytes of `out` are its place. The
// other bytes stay as they were. Where `out` has under 8 bytes the answer is 1, and nothing is written.
pub fn sheet_check(sheet: &[u8], out: &mut [u8]) -> u32
    ensures { CheckAnswers sheet.now out.old out.new result }
{
    if out.len() < HEAD {
        return NO_ROOM;
    }
    let mut tree = [TreeEntry::Blank; ENTRIES];
    let mut operators = [OperatorEntry::Blank; ENTRIES];
    let mut frames = [WalkFrame::Blank; ENTRIES];
    let mut types = [TypeEntry::Unused; TYPES];
    let mut lent = Tables {
        operators: &mut operators,
        frames: &mut frames,
        types: &mut types,
    };
    let mut findings = [BLANK; FINDINGS];
    // a match, as in `sheet_read`
    match read_and_check(sheet, &Library, &Empty, &mut tree, &mut lent, &mut findings) {
        Ok(c) => checked(out, &c, &findings),
        Err(e) => refused(out, Refusal::from(e)),
    }
}
