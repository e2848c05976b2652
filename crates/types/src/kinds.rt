ghost use Rattle.std.specs.Prelude.{◌≡◌, ◌<◌};
ghost use Rattle.types.specs.Kinds.{Right, Says, entry_kind, rank, verdict};

use crate::entries::TypeEntry;

// How many kinds there are.
pub const KINDS: usize = 12;

// The kinds of types, in rank order.
#[derive(Clone, Copy, PartialEq, Eq, Debug)]
pub enum Kind {
    Number,
    NumberLiteral,
    String,
    StringLiteral,
    Boolean,
    True,
    False,
    Undefined,
    Null,
    Function,
    Pair,
    List,
}

// What two kinds alone say of two types.
#[derive(Clone, Copy, PartialEq, Eq, Debug)]
pub enum Verdict {
    // They have a common value.
    Meet,
    // They have none.
    Never,
    // It depends on their parts.
    ByParts,
}

#[derive(Clone, Copy)]
struct Row {
    cells: [Verdict; KINDS],
}

use Verdict::{ByParts as P, Meet as M, Never as N};

// Rows and columns in rank order: an array of rows, indexed by two kinds, so that it is read as a table.
const MEETING: [Row; KINDS] = [
    Row {
        cells: [M, M, N, N, N, N, N, N, N, N, N, N],
    },
    Row {
        cells: [M, P, N, N, N, N, N, N, N, N, N, N],
    },
    Row {
        cells: [N, N, M, M, N, N, N, N, N, N, N, N],
    },
    Row {
        cells: [N, N, M, P, N, N, N, N, N, N, N, N],
    },
    Row {
        cells: [N, N, N, N, M, M, M, N, N, N, N, N],
    },
    Row {
        cells: [N, N, N, N, M, M, N, N, N, N, N, N],
    },
    Row {
        cells: [N, N, N, N, M, N, M, N, N, N, N, N],
    },
    Row {
        cells: [N, N, N, N, N, N, N, M, N, N, N, N],
    },
    Row {
        cells: [N, N, N, N, N, N, N, N, M, N, N, M],
    },
    Row {
        cells: [N, N, N, N, N, N, N, N, N, P, N, N],
    },
    Row {
        cells: [N, N, N, N, N, N, N, N, N, N, P, P],
    },
    Row {
        cells: [N, N, N, N, N, N, N, N, M, N, P, M],
    },
];

// The place of a kind in rank order.
pub fn rank_of(k: Kind) -> usize
    ensures ranked { result ≡ rank k }
    ensures below { result < 12 }
{
    k as usize
}

// The cell of a right table.
fn cell(table: &[Row; KINDS], a: Kind, b: Kind) -> Verdict
    requires { Right table.now }
    ensures { result ≡ verdict a b }
{
    table[rank_of(a)].cells[rank_of(b)]
}

// What two kinds alone say of two types.
pub fn verdict_of(a: Kind, b: Kind) -> Verdict
    ensures known { result ≡ verdict a b }
    ensures means { Says a b result }
{
    cell(&MEETING, a, b)
}

// The kind of the type that an entry holds; `any`, a union and a code unit have none.
pub fn kind_of(e: TypeEntry) -> Option<Kind>
    ensures { result ≡ entry_kind e }
{
    match e {
        TypeEntry::Unused | TypeEntry::Any | TypeEntry::CodeUnit(_) | TypeEntry::Union { .. } =>
            None,
        TypeEntry::Number => Some(Kind::Number),
        TypeEntry::NumberLiteral { .. } => Some(Kind::NumberLiteral),
        TypeEntry::String => Some(Kind::String),
        TypeEntry::StringLiteral { .. } => Some(Kind::StringLiteral),
        TypeEntry::Boolean => Some(Kind::Boolean),
        TypeEntry::True => Some(Kind::True),
        TypeEntry::False => Some(Kind::False),
        TypeEntry::Undefined => Some(Kind::Undefined),
        TypeEntry::Null => Some(Kind::Null),
        TypeEntry::Function { .. } => Some(Kind::Function),
        TypeEntry::Pair { .. } => Some(Kind::Pair),
        TypeEntry::List { .. } => Some(Kind::List),
    }
}
