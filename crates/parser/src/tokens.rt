// The symbols of tokens.
ghost use Rattle.std.specs.Prelude.{◌≡◌};
ghost use Rattle.parser.specs.Symbols.{words, marks, symbol_in, symbol_of};

use crate::symbols::{Leaf, Operator, Prefix, Symbol};
use lexer::kinds::Kind;

fn word(text: &[u8]) -> Symbol
    ensures { result ≡ symbol_in words text.now }
{
    match text {
        b"true" => Symbol::Leaf(Leaf::True),
        b"false" => Symbol::Leaf(Leaf::False),
        b"null" => Symbol::Leaf(Leaf::Null),
        b"typeof" => Symbol::Prefix(Prefix::Typeof),
        _ => Symbol::Other,
    }
}

fn mark(text: &[u8]) -> Symbol
    ensures { result ≡ symbol_in marks text.now }
{
    match text {
        b"*" => Symbol::Infix(Operator::Multiply),
        b"/" => Symbol::Infix(Operator::Divide),
        b"%" => Symbol::Infix(Operator::Remainder),
        b"+" => Symbol::Infix(Operator::Add),
        b"-" => Symbol::Infix(Operator::Subtract),
        b"<" => Symbol::Infix(Operator::Less),
        b">" => Symbol::Infix(Operator::Greater),
        b"<=" => Symbol::Infix(Operator::AtMost),
        b">=" => Symbol::Infix(Operator::AtLeast),
        b"===" => Symbol::Infix(Operator::Same),
        b"!==" => Symbol::Infix(Operator::Differs),
        b"&&" => Symbol::Infix(Operator::And),
        b"||" => Symbol::Infix(Operator::Or),
        b"!" => Symbol::Prefix(Prefix::Not),
        b"(" => Symbol::Open,
        b")" => Symbol::Close,
        b"?" => Symbol::Question,
        b":" => Symbol::Colon,
        b";" => Symbol::Semicolon,
        _ => Symbol::Other,
    }
}

// What a token is to the grammar, by its kind and its text.
pub fn symbol_of(kind: Kind, text: &[u8]) -> Symbol
    ensures { result ≡ symbol_of kind text.now }
{
    match kind {
        Kind::Name => Symbol::Leaf(Leaf::Name),
        Kind::Word => word(text),
        Kind::Number => Symbol::Leaf(Leaf::Number),
        Kind::String => Symbol::Leaf(Leaf::Text),
        Kind::Mark => mark(text),
    }
}
