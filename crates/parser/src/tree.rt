// The tree table and the stacks. A caller lends them, since reading and checking allocate nothing: so parts are given by
// index and not boxed, and each table has a kind `Blank`, for entries that are not written yet.
ghost use Rattle.std.specs.Prelude.{◌≡◌};
ghost use Rattle.parser.specs.Holds.{awaits, completion};

use crate::symbols::{Leaf, Operator, Prefix};
use types::entries::TypeEntry;

// One entry of the tree table. The indexes of its parts are lower than its own.
#[derive(Clone, Copy)]
pub enum TreeEntry {
    Blank,
    // the token that the expression is
    Leaf {
        leaf: Leaf,
        place: usize,
        len: usize,
    },
    // the operator, its place, and its operand
    Unary {
        operator: Prefix,
        place: usize,
        operand: usize,
    },
    Binary {
        operator: Operator,
        left: usize,
        right: usize,
    },
    Choice {
        test: usize,
        then: usize,
        other: usize,
    },
    // an expression and a semicolon; `before` is the index of the statement before it, if there is one
    Statement {
        before: Option<usize>,
        expression: usize,
    },
}

// One entry of the stack that holds pending operators and open parts while a sheet is read, and finished operands while
// it is checked: so that a caller lends one table for both.
#[derive(Clone, Copy)]
pub enum OperatorEntry {
    Blank,
    // waits for its right operand
    Infix { operator: Operator, left: usize },
    // waits for its operand
    Prefix { operator: Prefix, place: usize },
    // a bracket that is not closed
    Bracket,
    // after `?`
    Consequent { test: usize },
    // after `:`
    Otherwise { test: usize, then: usize },
    // a finished operand: its place and its type
    Operand { place: usize, entry: TypeEntry },
}

impl OperatorEntry {
    // How tightly the operand that the part waits for binds.
    pub(crate) fn awaits(self) -> usize
        ensures { result ≡ awaits self }
    {
        match self {
            OperatorEntry::Infix { operator, .. } => operator.binding() + 1,
            // tighter than every operator between operands
            OperatorEntry::Prefix { .. } => 8,
            _ => 0,
        }
    }

    // The entry of a part that ends with its operand, which stands at `at`.
    pub(crate) fn completed(self, at: usize) -> Option<TreeEntry>
        ensures { result ≡ completion self at }
    {
        match self {
            OperatorEntry::Infix { operator, left } => Some(TreeEntry::Binary {
                operator,
                left,
                right: at,
            }),
            OperatorEntry::Prefix { operator, place } => Some(TreeEntry::Unary {
                operator,
                place,
                operand: at,
            }),
            OperatorEntry::Otherwise { test, then } => Some(TreeEntry::Choice {
                test,
                then,
                other: at,
            }),
            _ => None,
        }
    }
}

// One entry of the stack of a check: what is still to be done, the next on top.
#[derive(Clone, Copy)]
pub enum WalkFrame {
    Blank,
    // the statement at an index, if there is one, and those before it
    Statements(Option<usize>),
    // the expression at an index
    Expression(usize),
    // an operator, with its place, whose operand is finished
    Unary { operator: Prefix, place: usize },
    // an operator whose operands are finished
    Binary(Operator),
    // a choice whose three parts are finished
    Choice,
}
