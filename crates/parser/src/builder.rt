// Builds the tree of a sheet, token by token: operators by their binding, on a stack of the parts that are still open.
ghost use Rattle.std.specs.Prelude.{◌≡◌, ℕ, ◌<◌, length, None, MatchOption};
ghost use Rattle.parser.specs.Grammar.{atom, follow};
ghost use Rattle.stack.specs.Items.{held, room};
ghost use Rattle.parser.specs.Holds.{Lower};
ghost use Rattle.parser.specs.Building.{IsEmpty, HasRoom, Adds, Grown, Completes, Lowest, TakesOperand, TakesAfter, GoesOn, Takes, Finishes};

use crate::reading::Read;
use crate::symbols::{Follow, Symbol, Token};
use crate::tree::{OperatorEntry, TreeEntry};
use lexer::reasons::Reason;
use lexer::refusal::Refusal;
use stack::Stack;

// What was seen last.
#[derive(Clone, Copy)]
pub enum Position {
    // before a statement
    Start,
    // before an operand
    Want,
    // after the operand at an index
    After(usize),
}

// The program so far, in tables that are lent.
#[derive(Drop)]
pub struct Builder<'a> {
    pub tree: &'a mut [TreeEntry],
    // the parts that are still open, the innermost on top
    pub parts: Stack<'a, OperatorEntry>,
    // how many entries of the tree are in use
    pub used: usize,
    // the index of the last statement that has ended, if there is one
    pub last: Option<usize>,
}

// Two facts stand at most methods: `HasRoom`, that each table has room for one entry more, and `Grown n`, that the tables
// are the ones that they were, with at most n entries more in use. They are clauses and no invariant: `Grown` speaks of a
// builder before and after, and a full builder, which has no room, is one too.
impl<'a> Builder<'a> {
    pub fn new(tree: &'a mut [TreeEntry], parts: &'a mut [OperatorEntry]) -> Self
        ensures lent { result.tree.ghost_name ≡ tree.entry.ghost_name }
        ensures table { result.tree.now ≡ tree.old }
        ensures places { room result.parts ≡ length parts.old }
        ensures empty { IsEmpty result }
    {
        Builder {
            tree,
            parts: Stack::new(parts),
            used: 0,
            last: None,
        }
    }

    // Writes an entry above those in use, and gives its index.
    fn add(&mut self, entry: TreeEntry) -> usize
        requires { HasRoom self.old }
        ensures { Adds entry self.old self.new result }
    {
        let at = self.used;
        // By index: of what is written through `get_mut`, a proof would know the length alone.
        self.tree[at] = entry;
        self.used = at + 1;
        at
    }

    // Completes the part on top, if it ends with its operand and that binds as tightly as `least`. The operand stands at
    // `at`, and the index of the completed part is given.
    fn reduce_top(&mut self, at: usize, least: usize) -> Option<usize>
        requires { HasRoom self.old }
        ensures { MatchOption result (Lowest least self.old self.new) (λ i. Completes self.old at least self.new i × (length (held self.new.parts) < length (held self.old.parts))) }
    {
        let top = self.parts.top()?;
        if top.awaits() < least {
            return None;
        }
        let entry = top.completed(at)?;
        self.parts.pop();
        Some(self.add(entry))
    }

    // Completes the parts that end with their operand and await one that binds as tightly as `least`, from the top down.
    #[tactic(auto, using(crate::proofs::Reductions::completes_more))]
    fn reduce(&mut self, mut at: usize, least: usize) -> usize
        requires { HasRoom self.old }
        ensures completes { Completes self.old at least self.new result }
        ensures lower { Lower least (held self.new.parts) }
    {
        while let Some(next) = self.reduce_top(at, least) {
            at = next;
        }
        at
    }

    // A token where an operand is wanted.
    #[tactic(auto, using(crate::proofs::Arms::operands))]
    fn operand(&mut self, t: Token) -> Option<Position>
        requires { HasRoom self.old }
        ensures grown { Grown 1 self.old self.new }
        ensures turns { TakesOperand self.old t self.new result }
    {
        match t.symbol {
            Symbol::Leaf(leaf) => {
                let at = self.add(TreeEntry::Leaf {
                    leaf,
                    place: t.place,
                    len: t.len,
                });
                Some(Position::After(at))
            }
            Symbol::Open => {
                self.parts.push(OperatorEntry::Bracket);
                Some(Position::Want)
            }
            _ => {
                let operator = t.symbol.before()?;
                self.parts.push(OperatorEntry::Prefix {
                    operator,
                    place: t.place,
                });
                Some(Position::Want)
            }
        }
    }

    // A token that does not go on, after the operand at `at` with no part on top that ends with it.
    fn close(&mut self, at: usize, t: Token) -> Option<Position>
        requires room { HasRoom self.old }
        requires lower { Lower 0 (held self.old.parts) }
        requires ends { follow t.symbol ≡ None }
        ensures grown { Grown 1 self.old self.new }
        ensures turns { (k : ℕ) → TakesAfter self.old at k t self.new result }
    {
        match (self.parts.pop(), t.symbol) {
            (None, Symbol::Semicolon) => {
                let i = self.add(TreeEntry::Statement {
                    before: self.last,
                    expression: at,
                });
                self.last = Some(i);
                Some(Position::Start)
            }
            (Some(OperatorEntry::Bracket), Symbol::Close) => Some(Position::After(at)),
            (Some(OperatorEntry::Consequent { test }), Symbol::Colon) => {
                self.parts.push(OperatorEntry::Otherwise { test, then: at });
                Some(Position::Want)
            }
            _ => None,
        }
    }

    // The part that goes on from the operand at `at`.
    fn open(&mut self, at: usize, f: Follow)
        requires { HasRoom self.old }
        ensures grown { Grown 1 self.old self.new }
        ensures turns { GoesOn self.old at f self.new }
    {
        self.parts.push(match f {
            Follow::Infix(operator) => OperatorEntry::Infix { operator, left: at },
            Follow::Choice => OperatorEntry::Consequent { test: at },
        });
    }

    // A token after the operand at `at`.
    fn follow(&mut self, at: usize, t: Token) -> Option<Position>
        requires { HasRoom self.old }
        ensures grown { Grown 1 self.old self.new }
        ensures turns { TakesAfter self.old at atom t self.new result }
    {
        match t.symbol.follow() {
            Some(f) => {
                let at = self.reduce(at, f.level() + 1);
                self.open(at, f);
                Some(Position::Want)
            }
            None => {
                let at = self.reduce(at, 0);
                self.close(at, t)
            }
        }
    }

    // One token more; `None` where no program goes on with it.
    pub(crate) fn step(&mut self, position: Position, t: Token) -> Option<Position>
        requires { HasRoom self.old }
        ensures grown { Grown 1 self.old self.new }
        ensures turns { Takes self.old position t self.new result }
    {
        match position {
            Position::Start | Position::Want => self.operand(t),
            Position::After(at) => self.follow(at, t),
        }
    }

    // The reading, once all tokens are taken; `end` is the sheet's length.
    pub fn finish(&self, position: Position, end: usize) -> Result<Read, Refusal>
        ensures { Finishes self.now position end result }
    {
        match position {
            Position::Start => Ok(Read::new(self.used)),
            _ => Err(Reason::NoProgram.at(end)),
        }
    }
}
