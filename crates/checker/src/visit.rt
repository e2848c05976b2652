// Visiting the entries of the tree.
ghost use Rattle.std.specs.Prelude.{◌≡◌, ℕ, List, Ok, take, drop};
ghost use Rattle.registers.specs.Meaning.{Meaning};
ghost use Rattle.parser.specs.declared.tree.WalkFrame.TheVariants.{Expression, Statements};
ghost use Rattle.checker.specs.declared.finding.Finding.{Finding as AnyFinding};
ghost use Rattle.checker.specs.declared.first.First.{First as AnyFirst};
ghost use Rattle.checker.specs.declared.store.Store.{Store as AnyStore};
ghost use Rattle.checker.specs.Askings.{AsksName};
ghost use Rattle.checker.specs.Makings.{MakesName};
ghost use Rattle.checker.specs.Standing.{Onward, SameLoans, VisitsToken, WaitsForParts, state};

use crate::finding::Finding;
use crate::first::First;
use crate::proper::entry_at;
use crate::store::{Store, TooHeavy};
use crate::walk::{Source, Walk};
use parser::symbols::Leaf;
use parser::tree::{TreeEntry, WalkFrame};
use registers::register::Register;
use types::entries::Root;

impl<'a, R> Source<'a, R> {
    // The bytes of the sheet from a place on, as far as there are any.
    fn part(&self, place: usize, len: usize) -> &[u8]
        ensures { result.now ≡ take len (drop place self.now.sheet.now) }
    {
        let rest = self.sheet.get(place..).unwrap_or(&[]);
        rest.get(..len).unwrap_or(rest)
    }
}

impl<'a> Walk<'a> {
    // The type of a name, for whose binding the register is asked.
    fn name_made<R: Register>(
        &mut self,
        source: &Source<R>,
        findings: &mut First<Finding>,
        store: &mut Store,
        place: usize,
        text: &[u8],
    ) -> Result<Root, TooHeavy>
        ensures rest { self.new ≡ record self.old { room = self.new.room } }
        ensures lent { SameLoans (state self.old findings.old store.old) (state self.new findings.new store.new) }
        ensures asked { AsksName findings.old (R.Register.meaning source.now.names.now) place text.now findings.new }
        ensures makes { MakesName store.old (R.Register.meaning source.now.names.now) text.now store.new result }
    {
        let found = source.names.ask(text, &mut self.room);
        findings.ask_bound(place, found);
        store.told_made(found, &self.room)
    }

    // A token.
    fn visit_leaf<R: Register>(
        &mut self,
        source: &Source<R>,
        findings: &mut First<Finding>,
        store: &mut Store,
        leaf: Leaf,
        place: usize,
        len: usize,
    ) -> Result<(), TooHeavy>
        ensures { VisitsToken source.now.sheet.now (R.Register.meaning source.now.names.now) leaf place len (state self.old findings.old store.old) (state self.new findings.new store.new) result }
    {
        let text = source.part(place, len);
        let made = match leaf {
            Leaf::Name => self.name_made(source, findings, store, place, text)?,
            _ => store.literal_made(leaf, text)?,
        };
        self.ended(store, place, made)
    }

    // An expression that is no token waits for its parts.
    fn wait_for_parts(&mut self, entry: TreeEntry)
        ensures { WaitsForParts entry self.old self.new }
    {
        match entry {
            TreeEntry::Unary {
                operator,
                place,
                operand,
            } => self.wait(&[
                WalkFrame::Unary { operator, place },
                WalkFrame::Expression(operand),
            ]),
            TreeEntry::Binary {
                operator,
                left,
                right,
            } => self.wait(&[
                WalkFrame::Binary(operator),
                WalkFrame::Expression(right),
                WalkFrame::Expression(left),
            ]),
            TreeEntry::Choice { test, then, other } => self.wait(&[
                WalkFrame::Choice,
                WalkFrame::Expression(other),
                WalkFrame::Expression(then),
                WalkFrame::Expression(test),
            ]),
            _ => {}
        }
    }

    // The expression at an index: a token ends at once, other expressions wait for their parts.
    pub fn visit_expression<R: Register>(
        &mut self,
        source: &Source<R>,
        findings: &mut First<Finding>,
        store: &mut Store,
        i: usize,
    ) -> Result<(), TooHeavy>
        ensures { Onward source.now.sheet.now (R.Register.meaning source.now.names.now) source.now.tree.now (Expression i) (state self.old findings.old store.old) (state self.new findings.new store.new) result }
    {
        match entry_at(source.tree, i) {
            TreeEntry::Leaf { leaf, place, len } => {
                self.visit_leaf(source, findings, store, leaf, place, len)
            }
            entry => {
                self.wait_for_parts(entry);
                Ok(())
            }
        }
    }

    // The statement at an index, if there is one, and those before it, which come first.
    pub fn visit_statements<R>(&mut self, source: &Source<R>, last: Option<usize>)
        ensures { (sheet : List ℕ) (Γ : Meaning) (f : AnyFirst AnyFinding) (s : AnyStore) → Onward sheet Γ source.now.tree.now (Statements last) (state self.old f s) (state self.new f s) (Ok tt) }
    {
        let Some(i) = last else {
            return;
        };
        if let TreeEntry::Statement { before, expression } = entry_at(source.tree, i) {
            self.wait(&[
                WalkFrame::Expression(expression),
                WalkFrame::Statements(before),
            ]);
        }
    }
}
