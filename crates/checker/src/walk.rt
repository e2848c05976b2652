// The walk of a check over the tree, by frames.
ghost use Rattle.std.specs.Prelude.{◌≡◌};
ghost use Rattle.stack.specs.Items.{held, room};
ghost use Rattle.checker.specs.Standing.{Ends, OnwardAny, Pushed, Takes, state};
ghost use Rattle.parser.specs.declared.tree.WalkFrame.TheVariants.{Binary, Choice, Unary};

use crate::finding::Finding;
use crate::first::First;
use crate::rules::rule_of;
use crate::store::{Store, TooHeavy};
use parser::symbols::{Operator, Prefix};
use parser::tree::{OperatorEntry, TreeEntry, WalkFrame};
use registers::register::ROOM;
use stack::Stack;
use types::entries::{Root, TypeEntry};

// What a walk reads: a sheet, its tree, and the register of its names.
#[derive(Drop)]
pub struct Source<'a, R> {
    pub sheet: &'a [u8],
    pub tree: &'a [TreeEntry],
    pub names: &'a R,
}

// The stacks of a walk. The findings and the types are lent beside it: of a loan two structs deep a proof knows the length
// alone.
#[derive(Drop)]
pub struct Walk<'a> {
    // what is still to be done
    pub frames: Stack<'a, WalkFrame>,
    // the finished operands
    pub operators: Stack<'a, OperatorEntry>,
    // the parts of the type that a register told last
    pub room: [TypeEntry; ROOM],
}

// A finished operand: its place and its type.
#[derive(Clone, Copy)]
pub struct Operand {
    pub place: usize,
    pub entry: TypeEntry,
}

// What is taken where no operand is on top. No tree in order comes to that, so no caller is given an Option to look into.
const NO_OPERAND: Operand = Operand {
    place: 0,
    entry: TypeEntry::Any,
};

// The operand on top, taken off.
fn take(operators: &mut Stack<OperatorEntry>) -> Operand
    ensures takes { Takes (held operators.old) result (held operators.new) }
    ensures space { room operators.new ≡ room operators.old }
{
    match operators.pop() {
        Some(OperatorEntry::Operand { place, entry }) => Operand { place, entry },
        _ => NO_OPERAND,
    }
}

impl<'a> Walk<'a> {
    // Frames that wait, the last one on top.
    pub fn wait(&mut self, frames: &[WalkFrame])
        ensures { Pushed self.old frames.now self.new }
    {
        for frame in frames {
            self.frames.push(*frame);
        }
    }

    // An expression has ended, with its type in hand.
    pub fn ended(&mut self, store: &mut Store, place: usize, made: Root) -> Result<(), TooHeavy>
        ensures { Ends self.old store.old place made self.new store.new result }
    {
        store.keep(made)?;
        self.operators.push(OperatorEntry::Operand {
            place,
            entry: made.entry,
        });
        Ok(())
    }

    // An operator whose operand is finished.
    pub fn finish_unary(
        &mut self,
        findings: &mut First<Finding>,
        store: &mut Store,
        op: Prefix,
        place: usize,
    ) -> Result<(), TooHeavy>
        ensures { OnwardAny (Unary op place) (state self.old findings.old store.old) (state self.new findings.new store.new) result }
    {
        let v = take(&mut self.operators);
        findings.ask_prefix(store, op, v);
        let made = store.prefix_made(op);
        self.ended(store, place, made)
    }

    // An operator whose operands are finished.
    pub fn finish_binary(
        &mut self,
        findings: &mut First<Finding>,
        store: &mut Store,
        op: Operator,
    ) -> Result<(), TooHeavy>
        ensures { OnwardAny (Binary op) (state self.old findings.old store.old) (state self.new findings.new store.new) result }
    {
        let right = take(&mut self.operators);
        let left = take(&mut self.operators);
        let rule = rule_of(op, left.entry, right.entry);
        findings.ask_infix(store, rule, left, right);
        let made = store.infix_made(rule, right.entry)?;
        self.ended(store, left.place, made)
    }

    // A choice whose three parts are finished.
    pub fn finish_choice(
        &mut self,
        findings: &mut First<Finding>,
        store: &mut Store,
    ) -> Result<(), TooHeavy>
        ensures { OnwardAny Choice (state self.old findings.old store.old) (state self.new findings.new store.new) result }
    {
        let other = take(&mut self.operators);
        let then = take(&mut self.operators);
        let test = take(&mut self.operators);
        findings.ask_fits(store, test, TypeEntry::Boolean);
        let made = store.united(then.entry, other.entry)?;
        self.ended(store, test.place, made)
    }
}
