// The steps of a check: one frame after the other, until none waits.
ghost use Rattle.checker.specs.Standing.{Onward, Runs, state};

use crate::finding::Finding;
use crate::first::First;
use crate::store::{Store, TooHeavy};
use crate::walk::{Source, Walk};
use parser::tables::ENTRIES;
use parser::tree::WalkFrame;
use registers::register::Register;

// No tree of `ENTRIES` entries takes more steps. They are counted, since over entries out of order a walk need not end.
const STEPS: usize = 2 * ENTRIES;

impl<'a> Walk<'a> {
    // Does what a frame asks for. It goes by an enum, not by a closure: frames lie in a lent slice, so they are plain data.
    fn see_to<R: Register>(
        &mut self,
        source: &Source<R>,
        findings: &mut First<Finding>,
        store: &mut Store,
        frame: WalkFrame,
    ) -> Result<(), TooHeavy>
        ensures { Onward source.now.sheet.now (R.Register.meaning source.now.names.now) source.now.tree.now frame (state self.old findings.old store.old) (state self.new findings.new store.new) result }
    {
        match frame {
            WalkFrame::Blank => Ok(()),
            WalkFrame::Statements(last) => {
                self.visit_statements(source, last);
                Ok(())
            }
            WalkFrame::Expression(i) => self.visit_expression(source, findings, store, i),
            WalkFrame::Unary { operator, place } => {
                self.finish_unary(findings, store, operator, place)
            }
            WalkFrame::Binary(operator) => self.finish_binary(findings, store, operator),
            WalkFrame::Choice => self.finish_choice(findings, store),
        }
    }

    // All steps, in a number that bounds them over any table.
    pub fn run<R: Register>(
        &mut self,
        source: &Source<R>,
        findings: &mut First<Finding>,
        store: &mut Store,
    ) -> Result<(), TooHeavy>
        ensures { Runs source.now.sheet.now (R.Register.meaning source.now.names.now) source.now.tree.now (state self.old findings.old store.old) (state self.new findings.new store.new) result }
    {
        for _ in 0..STEPS {
            let Some(frame) = self.frames.pop() else {
                return Ok(());
            };
            self.see_to(source, findings, store, frame)?;
        }
        Ok(())
    }
}
