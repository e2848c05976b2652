// The tables that a check is lent, of the sizes that it asks for: made once, and used for sheet after sheet.
#![tactic(auto)]

ghost use Rattle.std.specs.Prelude.{◌≡◌, length, vec_len, IfOk};
ghost use Rattle.tables.specs.Answered.{AnsweredOver, HoldsAll};

use checker::calls::{Answer, Call};
use checker::finding::{BLANK, Finding};
use checker::run::run;
use checker::stage::Checked;
use parser::tables;
use parser::tables::{ENTRIES, TYPES};
use parser::tree::{OperatorEntry, TreeEntry, WalkFrame};
use registers::empty::Empty;
use registers::library::Library;
use std::alloc::{AllocError, Global};
use types::entries::TypeEntry;

// What is answered of a sheet. `checked` stands beside the answer, since types can be asked of it alone.
#[derive(Drop)]
pub struct Outcome {
    pub answer: Answer,
    pub checked: Option<Checked>,
}

// Checks a sheet by the library over tables of any sizes. It takes slices, since a proof loses sight of a `Vec` that is lent
// inside a struct. It goes through `run` with one call, not through `read_and_check`: the law is of whole runs, so the
// programs make a run of one call.
fn check_over(
    sheet: &[u8],
    tree: &mut [TreeEntry],
    operators: &mut [OperatorEntry],
    frames: &mut [WalkFrame],
    types: &mut [TypeEntry],
    findings: &mut [Finding],
) -> Outcome
    ensures { AnsweredOver (record { of_tree = length tree.old; of_operators = length operators.old; of_frames = length frames.old; of_types = length types.old }) sheet.now result findings.new types.new }
{
    let mut said = [Answer::Blank];
    let mut lent = tables::Tables {
        operators,
        frames,
        types,
    };
    let checked = run(
        &Library,
        &Empty,
        &[Call::Check { sheet }],
        &mut said,
        tree,
        &mut lent,
        findings,
    );
    let [answer] = said;
    Outcome { answer, checked }
}

// No sheet that is checked has more findings: each expression has two at most, and a type that weighs 1 at least.
const FINDINGS: usize = 2 * TYPES;

// A blank list, as long as the findings of any sheet are many.
pub fn findings_list(heap: Global) -> Result<Vec<Finding>, AllocError>
    ensures { IfOk result (λ listed. HoldsAll (vec_len listed)) }
{
    Ok(vec![in heap; BLANK; FINDINGS]?)
}

#[derive(Drop)]
pub struct Tables {
    tree: Vec<TreeEntry>,
    operators: Vec<OperatorEntry>,
    frames: Vec<WalkFrame>,
    types: Vec<TypeEntry>,
    ghost full_tree: { vec_len tree ≡ 4096 },
    ghost full_operators: { vec_len operators ≡ 4096 },
    ghost full_frames: { vec_len frames ≡ 4096 },
    ghost full_types: { vec_len types ≡ 8192 },
}

impl Tables {
    ghost use Rattle.tables.specs.Answered.{Answered};

    // Tables in which nothing is written yet.
    pub fn new(heap: Global) -> Result<Self, AllocError> {
        Ok(Tables {
            tree: vec![in heap; TreeEntry::Blank; ENTRIES]?,
            operators: vec![in heap; OperatorEntry::Blank; ENTRIES]?,
            frames: vec![in heap; WalkFrame::Blank; ENTRIES]?,
            types: vec![in heap; TypeEntry::Unused; TYPES]?,
        })
    }

    // Checks a sheet by the library, with a findings list of any length. The types are those of this sheet after, where it was
    // checked; where it was refused, the findings list is blank.
    pub fn check(&mut self, sheet: &[u8], findings: &mut [Finding]) -> Outcome
        ensures { Answered sheet.now result findings.new self.new.types.items }
    {
        check_over(
            sheet,
            &mut self.tree,
            &mut self.operators,
            &mut self.frames,
            &mut self.types,
            findings,
        )
    }

    // The types of the sheet that was checked last.
    pub fn types(&self) -> &[TypeEntry]
        ensures { result.now ≡ self.now.types.items }
    {
        &self.types
    }
}
