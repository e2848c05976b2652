// Reads the tokens of a sheet into the tree table.
ghost use Rattle.std.specs.Prelude.{◌≡◌, ℕ, ◌≤◌, List, length};
ghost use Rattle.lexer.specs.Scanning.{Clean};
ghost use Rattle.lexer.specs.Tallies.{Counted};
ghost use Rattle.stack.specs.Items.{room};
ghost use Rattle.parser.specs.Symbols.{symbol_of};
ghost use Rattle.parser.specs.Building.{IsEmpty};
ghost use Rattle.parser.specs.Reading.{NotProgram};
ghost use Rattle.parser.specs.Parsing.{Parses};
ghost use Rattle.parser.specs.declared.tree.TreeEntry.{TreeEntry as AnyEntry};

use crate::builder::{Builder, Position};
use crate::reading::Read;
use crate::symbols::Token;
use crate::tokens::symbol_of;
use crate::tree::{OperatorEntry, TreeEntry};
use lexer::read;
use lexer::reasons::Reason;
use lexer::refusal::Refusal;
use lexer::scan::{Scanner, TOKEN_LIMIT};

// A token as the grammar has it.
impl From<read::Token<'_>> for Token {
    ghost from_gives = { λ found t. t ≡ record { symbol = symbol_of found.kind found.text.now; place = found.at; len = length found.text.now } };

    fn from(found: read::Token<'_>) -> Token {
        Token {
            symbol: symbol_of(found.kind, found.text),
            place: found.at,
            len: found.text.len(),
        }
    }
}

// What is told where no program goes on with the token at `place`: the first fault of all the tokens, if there is one.
fn give_up(scanner: Scanner, place: usize) -> Result<Read, Refusal>
    ensures { (sheet : List ℕ) (table : List AnyEntry) → scanner.entry.reader.sheet.now ≡ sheet → Counted scanner.entry → ((n : ℕ) → Clean sheet n → NotProgram sheet place) → Parses sheet table result }
{
    scanner.rest()?;
    Err(Reason::NoProgram.at(place))
}

// Reads a sheet, each token once, with a builder that has no entry in use.
fn build(sheet: &[u8], builder: &mut Builder) -> Result<Read, Refusal>
    requires empty { IsEmpty builder.old }
    requires entries { 4096 ≤ length builder.old.tree.now }
    requires places { 4096 ≤ room builder.old.parts }
    ensures lent { builder.new.tree.ghost_name ≡ builder.old.tree.ghost_name }
    ensures parses { Parses sheet.now builder.new.tree.now result }
{
    let mut scanner = Scanner::start(sheet)?;
    let mut position = Position::Start;
    while let Some(t) = scanner.next()? {
        // the tables have room for no more tokens
        if scanner.count() > TOKEN_LIMIT {
            return give_up(scanner, t.at);
        }
        let Some(next) = builder.step(position, t.into()) else {
            return give_up(scanner, t.at);
        };
        position = next;
    }
    scanner.rest()?;
    builder.finish(position, sheet.len())
}

// The same, with the tables that the builder takes.
pub(crate) fn parse(
    sheet: &[u8],
    tree: &mut [TreeEntry],
    operators: &mut [OperatorEntry],
) -> Result<Read, Refusal>
    requires entries { 4096 ≤ length tree.old }
    requires pending { 4096 ≤ length operators.old }
    ensures { Parses sheet.now tree.new result }
{
    let mut builder = Builder::new(tree, operators);
    let read = build(sheet, &mut builder);
    // the tree is taken back by its name: so the proof knows what is left in it
    let Builder { tree: _tree, .. } = builder;
    read
}
