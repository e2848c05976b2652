// The tables that a caller lends.
ghost use Rattle.std.specs.Prelude.{Decides};
ghost use Rattle.parser.specs.Reading.{Short};
ghost use Rattle.parser.specs.Lending.{sizes_of};

use crate::tree::{OperatorEntry, WalkFrame};
use lexer::scan::TOKEN_LIMIT;
use types::entries::TypeEntry;

// How many entries the tree table and the two stacks have at least: each entry of a tree has a token of its own.
pub const ENTRIES: usize = TOKEN_LIMIT;

// How many the type table has.
pub const TYPES: usize = 8192;

// The tables that a call works in, beside the tree: two stacks, and the types of a checked sheet. The tree is no field: a
// check only reads it, and a shared and a mutable loan out of one struct have no rule yet.
#[derive(Drop)]
pub struct Tables<'a> {
    pub operators: &'a mut [OperatorEntry],
    pub frames: &'a mut [WalkFrame],
    pub types: &'a mut [TypeEntry],
}

impl Tables<'_> {
    // Whether one of them, or a tree table of this length, is under its size.
    pub fn is_short(&self, tree: usize) -> bool
        ensures { Decides result (Short (sizes_of tree self.now)) }
    {
        tree < ENTRIES
            || self.operators.len() < ENTRIES
            || self.frames.len() < ENTRIES
            || self.types.len() < TYPES
    }
}
