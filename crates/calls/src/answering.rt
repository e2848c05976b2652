// The answers to the lines of the input.
use crate::line::{Request, request_of};
use crate::spelling::spell;
use anyhow::bail;
use checker::asked::type_of;
use checker::calls::Answer;
use checker::finding::{BLANK, Finding};
use checker::stage::Checked;
use lexer::refusal::Refusal;
use std::alloc::{AllocError, Global};
use std::fmt::Write;
use tables::Tables;

// The longest findings list that a call can ask for: its length has five digits at most.
const FINDINGS: usize = 99_999;

// Answers calls, and holds the text of the answers.
#[derive(Drop)]
pub struct Desk {
    heap: Global,
    tables: Tables,
    findings: Vec<Finding>,
    pending: Vec<usize>,
    out: String,
}

impl Desk {
    pub fn new(heap: Global) -> Result<Self, AllocError> {
        Ok(Desk {
            heap,
            tables: Tables::new(heap)?,
            findings: vec![in heap; BLANK; FINDINGS]?,
            pending: Vec::new(heap),
            out: String::new(heap),
        })
    }

    // All that was answered.
    pub fn text(&self) -> &str {
        &self.out
    }

    fn write_refusal(&mut self, stage: &str, refusal: Refusal) -> anyhow::Result<()> {
        let Refusal { reason, place } = refusal;
        writeln!(self.out, "{stage}-refused {} {place}", reason.number())?;
        Ok(())
    }

    fn write_findings(&mut self, count: usize) -> anyhow::Result<()> {
        for Finding { kind, place } in self.findings.iter().take(count) {
            writeln!(self.out, "finding {} {place}", kind.number())?;
        }
        Ok(())
    }

    fn write_types(&mut self, checked: &Checked) -> anyhow::Result<()> {
        let types = self.tables.types();
        for number in 0..checked.expressions() {
            let Ok(index) = type_of(checked, types, number) else {
                bail!("an expression's type was refused");
            };
            write!(self.out, "type {number}")?;
            spell(&mut self.out, &mut self.pending, types, index)?;
            writeln!(self.out)?;
        }
        Ok(())
    }

    fn check(&mut self, request: Request) -> anyhow::Result<()> {
        let Request { sheet, room } = request;
        let room = room.min(self.findings.len());
        let outcome = self.tables.check(&sheet, &mut self.findings[..room]);
        match outcome.answer {
            Answer::Blank => bail!("no call was made"),
            Answer::ReadRefused(refusal) => self.write_refusal("read", refusal)?,
            Answer::CheckRefused(refusal) => self.write_refusal("check", refusal)?,
            Answer::Checked { count, expressions } => {
                writeln!(self.out, "checked {count} {expressions}")?;
                self.write_findings(count.min(room))?;
            }
        }
        if let Some(checked) = outcome.checked {
            self.write_types(&checked)?;
        }
        Ok(())
    }

    // Answers one line of the input, given its number.
    pub fn answer(&mut self, line: &[u8], number: usize) -> anyhow::Result<()> {
        match request_of(self.heap, line)? {
            Some(request) => self.check(request)?,
            None => writeln!(self.out, "bad line {number}")?,
        }
        Ok(())
    }
}
