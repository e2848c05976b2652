// Entries that are drawn.
use crate::desk::Desk;
use crate::draw::Draw;
use checker::finding::{Finding, Kind};
use parser::symbols::{Leaf, Operator, Prefix};
use parser::tree::{OperatorEntry, TreeEntry, WalkFrame};
use types::entries::TypeEntry;

fn leaf(draw: &mut Draw) -> Leaf {
    match draw.below(6) {
        0 => Leaf::Number,
        1 => Leaf::Text,
        2 => Leaf::Name,
        3 => Leaf::True,
        4 => Leaf::False,
        _ => Leaf::Null,
    }
}

fn prefix(draw: &mut Draw) -> Prefix {
    match draw.below(3) {
        0 => Prefix::Not,
        1 => Prefix::Negate,
        _ => Prefix::Typeof,
    }
}

fn operator(draw: &mut Draw) -> Operator {
    match draw.below(13) {
        0 => Operator::Multiply,
        1 => Operator::Divide,
        2 => Operator::Remainder,
        3 => Operator::Add,
        4 => Operator::Subtract,
        5 => Operator::Less,
        6 => Operator::Greater,
        7 => Operator::AtMost,
        8 => Operator::AtLeast,
        9 => Operator::Same,
        10 => Operator::Differs,
        11 => Operator::And,
        _ => Operator::Or,
    }
}

// The index of a statement, or none.
fn statement(draw: &mut Draw, end: usize) -> Option<usize> {
    let index = draw.index(end);
    draw.flips().then(|| index)
}

// A token in a sheet of `len` bytes.
fn token(draw: &mut Draw, len: usize) -> TreeEntry {
    let leaf = leaf(draw);
    let place = draw.index(len);
    let len = draw.index(len.saturating_sub(place));
    TreeEntry::Leaf { leaf, place, len }
}

// An expression over a sheet of `len` bytes, whose parts stand below `end`.
fn expression(draw: &mut Draw, end: usize, len: usize) -> TreeEntry {
    if end == 0 {
        return token(draw, len);
    }
    match draw.below(4) {
        0 => token(draw, len),
        1 => TreeEntry::Unary {
            operator: prefix(draw),
            place: draw.index(len),
            operand: draw.index(end),
        },
        2 => TreeEntry::Binary {
            operator: operator(draw),
            left: draw.index(end),
            right: draw.index(end),
        },
        _ => TreeEntry::Choice {
            test: draw.index(end),
            then: draw.index(end),
            other: draw.index(end),
        },
    }
}

// An entry of any kind.
fn tree_entry(draw: &mut Draw, end: usize, len: usize) -> TreeEntry {
    match draw.below(6) {
        0 => TreeEntry::Blank,
        1 => TreeEntry::Statement {
            before: statement(draw, end),
            expression: draw.index(end),
        },
        _ => expression(draw, end, len),
    }
}

fn operator_entry(draw: &mut Draw) -> OperatorEntry {
    let index = draw.index(4096);
    match draw.below(7) {
        0 => OperatorEntry::Blank,
        1 => OperatorEntry::Infix {
            operator: operator(draw),
            left: index,
        },
        2 => OperatorEntry::Prefix {
            operator: prefix(draw),
            place: index,
        },
        3 => OperatorEntry::Bracket,
        4 => OperatorEntry::Consequent { test: index },
        5 => OperatorEntry::Otherwise {
            test: index,
            then: draw.index(4096),
        },
        _ => OperatorEntry::Operand {
            place: index,
            entry: type_entry(draw, 8192),
        },
    }
}

fn frame(draw: &mut Draw) -> WalkFrame {
    match draw.below(6) {
        0 => WalkFrame::Blank,
        1 => WalkFrame::Statements(statement(draw, 4096)),
        2 => WalkFrame::Expression(draw.index(4096)),
        3 => WalkFrame::Unary {
            operator: prefix(draw),
            place: draw.index(16384),
        },
        4 => WalkFrame::Binary(operator(draw)),
        _ => WalkFrame::Choice,
    }
}

// A type that has no parts.
fn plain_type(draw: &mut Draw) -> TypeEntry {
    match draw.below(9) {
        0 => TypeEntry::Any,
        1 => TypeEntry::Number,
        2 => TypeEntry::NumberLiteral {
            digits: draw.any(),
            exponent: i16::try_from(draw.below(32768)).unwrap_or(0),
        },
        3 => TypeEntry::String,
        4 => TypeEntry::Boolean,
        5 => TypeEntry::True,
        6 => TypeEntry::False,
        7 => TypeEntry::Undefined,
        _ => TypeEntry::Null,
    }
}

// A type whose parts stand below `end`.
fn whole_type(draw: &mut Draw, end: usize) -> TypeEntry {
    let first = draw.index(end);
    let count = draw.index(end.saturating_sub(first));
    match draw.below(5) {
        1 if end > 0 => TypeEntry::Function { first, count },
        2 if end > 0 => TypeEntry::Pair {
            head: first,
            tail: draw.index(end),
        },
        3 if end > 0 => TypeEntry::List { element: first },
        4 => TypeEntry::Union { first, count },
        _ => plain_type(draw),
    }
}

// An entry of any kind.
fn type_entry(draw: &mut Draw, end: usize) -> TypeEntry {
    match draw.below(16) {
        0 => TypeEntry::Unused,
        1 => TypeEntry::CodeUnit(u16::try_from(draw.below(65536)).unwrap_or(0)),
        2 => TypeEntry::StringLiteral {
            first: draw.index(end),
            count: draw.index(end),
        },
        _ => whole_type(draw, end),
    }
}

fn finding(draw: &mut Draw) -> Finding {
    let place = draw.index(16384);
    let kind = match draw.below(3) {
        0 => Kind::Blank,
        1 => Kind::Clash,
        _ => Kind::UnknownName,
    };
    Finding { kind, place }
}

impl Desk<'_> {
    // Fills the tree with entries of any kind.
    pub fn draw_tree(&mut self, draw: &mut Draw, len: usize) {
        for (index, slot) in self.tree.iter_mut().enumerate() {
            *slot = tree_entry(draw, index, len);
        }
    }

    // Fills the tree with expressions; the entry at `last` is a statement.
    pub fn draw_graph(&mut self, draw: &mut Draw, last: usize, len: usize) {
        for (index, slot) in self.tree.iter_mut().enumerate() {
            *slot = match expression(draw, index, len) {
                // the text of a number or a string would have to be one
                TreeEntry::Leaf {
                    leaf: Leaf::Number | Leaf::Text,
                    place,
                    len,
                } => TreeEntry::Leaf {
                    leaf: Leaf::Null,
                    place,
                    len,
                },
                entry => entry,
            };
        }
        let statement = TreeEntry::Statement {
            before: None,
            expression: draw.index(last),
        };
        self.set_tree(last, statement);
    }

    pub fn draw_stacks(&mut self, draw: &mut Draw) {
        for slot in self.operators.iter_mut() {
            *slot = operator_entry(draw);
        }
        for slot in self.frames.iter_mut() {
            *slot = frame(draw);
        }
    }

    // Fills the types with entries of any kind. Parts stand among the first `end` entries, where the draw is not wild.
    pub fn draw_types(&mut self, draw: &mut Draw, end: usize) {
        for (index, slot) in self.types.iter_mut().enumerate() {
            *slot = type_entry(draw, index.min(end));
        }
    }

    // Fills the types with types whose parts stand among the first `end` entries.
    pub fn draw_whole_types(&mut self, draw: &mut Draw, end: usize) {
        for (index, slot) in self.types.iter_mut().enumerate() {
            *slot = whole_type(draw, index.min(end));
        }
    }

    pub fn draw_findings(&mut self, draw: &mut Draw) {
        for slot in self.findings.iter_mut() {
            *slot = finding(draw);
        }
    }
}
