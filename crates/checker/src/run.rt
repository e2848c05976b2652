// Whole runs of calls.
ghost use Rattle.std.specs.Prelude.{◌≡◌, length};
ghost use Rattle.parser.specs.Lending.{Lent, sizes_of};
ghost use Rattle.checker.specs.Outcomes.{ReadsAndChecks, refusal_in, refusing, saying};
ghost use Rattle.checker.specs.Runs.{RunsLawfully, sheet_of};

use crate::calls::{Answer, Call};
use crate::check::check;
use crate::finding::{Finding, blank_out};
use crate::stage::Checked;
use lexer::refusal::Refusal;
use parser::read;
use parser::tables::Tables;
use parser::tree::TreeEntry;
use registers::register::Register;

// Why a sheet was not checked.
#[derive(Clone, Copy)]
pub enum Refused {
    // it could not be read
    Read(Refusal),
    // it was read, and could not be checked
    Check(Refusal),
}

// The refusal, whichever step it came from.
impl From<Refused> for Refusal {
    ghost from_gives = { λ refused refusal. refusal ≡ refusal_in refused };

    fn from(refused: Refused) -> Refusal {
        match refused {
            Refused::Read(e) | Refused::Check(e) => e,
        }
    }
}

impl From<Refused> for Answer {
    ghost from_gives = { λ refused answer. answer ≡ refusing refused };

    fn from(refused: Refused) -> Answer {
        match refused {
            Refused::Read(e) => Answer::ReadRefused(e),
            Refused::Check(e) => Answer::CheckRefused(e),
        }
    }
}

// Reads a sheet, and checks it in the scope of the first register, as `check` does. Where it is refused, the findings list is
// blank. The registers, the tree, the tables and the findings are parameters one by one, here and below: a read writes the tree
// and a check reads it, and of what is lent on inside a struct a proof knows the length alone.
pub fn read_and_check<F: Register, S: Register>(
    sheet: &[u8],
    first: &F,
    second: &S,
    tree: &mut [TreeEntry],
    tables: &mut Tables<'_>,
    findings: &mut [Finding],
) -> Result<Checked, Refused>
    ensures checks { ReadsAndChecks (sizes_of (length tree.old) tables.old) (F.Register.meaning first.now) sheet.now result findings.new tables.new.types.now }
    ensures lent { Lent tables.old tables.new }
{
    let reading = read(sheet, tree, tables).map_err(Refused::Read);
    if reading.is_err() {
        blank_out(findings);
    }
    let reading = reading?;
    check(reading, sheet, tree, first, second, tables, findings).map_err(|(e, _)| Refused::Check(e))
}

impl Call<'_> {
    // Makes the call. It goes by an enum, not by a closure: the calls lie in a lent slice, so they are plain data.
    fn perform<F: Register, S: Register>(
        self,
        first: &F,
        second: &S,
        tree: &mut [TreeEntry],
        tables: &mut Tables<'_>,
        findings: &mut [Finding],
    ) -> Result<Checked, Refused>
        ensures performs { ReadsAndChecks (sizes_of (length tree.old) tables.old) (F.Register.meaning first.now) (sheet_of self.entry) result findings.new tables.new.types.now }
        ensures lent { Lent tables.old tables.new }
    {
        match self {
            Call::Check { sheet } => {
                read_and_check(sheet, first, second, tree, tables, findings)
            }
        }
    }
}

// What is said of a sheet that was checked, or was not.
fn said_of(outcome: &Result<Checked, Refused>) -> Answer
    ensures { result ≡ saying outcome.now }
{
    match outcome {
        Ok(checked) => Answer::Checked {
            count: checked.count(),
            expressions: checked.expressions(),
        },
        Err(refused) => Answer::from(*refused),
    }
}

// Makes the calls one after the other, as many as there are places for answers, and says what each answers. Where the last
// one was checked, it gives that too: the findings list and the type table are then that sheet's. Where the last one was
// refused, the findings list is blank. What the other tables hold after is free.
pub fn run<F: Register, S: Register>(
    first: &F,
    second: &S,
    calls: &[Call<'_>],
    said: &mut [Answer],
    tree: &mut [TreeEntry],
    tables: &mut Tables<'_>,
    findings: &mut [Finding],
) -> Option<Checked>
    ensures runs { RunsLawfully (sizes_of (length tree.old) tables.old) (F.Register.meaning first.now) (S.Register.meaning second.now) calls.now said.old said.new findings.old findings.new tables.new.types.now result }
    ensures lent { Lent tables.old tables.new }
{
    let mut last = None;
    let made = calls.len().min(said.len());
    // By index: of what is written through `said.iter_mut()` beside the calls, a proof would know the length alone.
    for (i, call) in calls[..made].iter().enumerate() {
        let outcome = call.perform(first, second, tree, tables, findings);
        said[i] = said_of(&outcome);
        last = outcome.ok();
    }
    last
}
