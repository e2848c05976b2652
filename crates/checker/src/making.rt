// The types of expressions, made in the type table.
ghost use Rattle.std.specs.Prelude.{◌≡◌};
ghost use Rattle.checker.specs.Makings.{MakesInfix, MakesLiteral, MakesNumber, MakesPrefix, MakesTold};

use crate::rules::Rule;
use crate::store::{Store, TooHeavy};
use building::literals::number_of;
use parser::symbols::{Leaf, Prefix};
use registers::told::Told;
use types::entries::{Root, TypeEntry};

impl<'a> Store<'a> {
    // A type whose parts stand in the table already.
    pub fn plain(&self, entry: TypeEntry) -> Root
        ensures { result ≡ record { entry = entry; used = self.now.used } }
    {
        Root {
            entry,
            used: self.used,
        }
    }

    // The type of an operator before its operand.
    pub fn prefix_made(&self, op: Prefix) -> Root
        ensures { MakesPrefix self.now op result }
    {
        match op {
            Prefix::Not => self.plain(TypeEntry::Boolean),
            Prefix::Negate => self.plain(TypeEntry::Number),
            Prefix::Typeof => self.plain(TypeEntry::String),
        }
    }

    // The type that the rule of an operator between its operands gives.
    pub fn infix_made(&mut self, rule: Rule, right: TypeEntry) -> Result<Root, TooHeavy>
        ensures lent { self.new.entries.ghost_name ≡ self.old.entries.ghost_name }
        ensures makes { MakesInfix self.old rule right self.new result }
    {
        match rule {
            Rule::Arithmetic | Rule::LeftNumber | Rule::RightNumber => {
                Ok(self.plain(TypeEntry::Number))
            }
            Rule::LeftString | Rule::RightString => Ok(self.plain(TypeEntry::String)),
            Rule::Comparison => Ok(self.plain(TypeEntry::Boolean)),
            Rule::Logical => self.united(TypeEntry::Boolean, right),
            Rule::BothOpen => self.united(TypeEntry::Number, TypeEntry::String),
        }
    }

    // The type of a number as it is written; where none is, the answer is free.
    fn number_made(&self, text: &[u8]) -> Result<Root, TooHeavy>
        ensures { MakesNumber self.now text.now result }
    {
        let entry = number_of(text).ok_or(TooHeavy)?;
        Ok(self.plain(entry))
    }

    // The type of a token that is no name; that of a name is free.
    pub fn literal_made(&mut self, leaf: Leaf, text: &[u8]) -> Result<Root, TooHeavy>
        ensures lent { self.new.entries.ghost_name ≡ self.old.entries.ghost_name }
        ensures makes { MakesLiteral self.old leaf text.now self.new result }
    {
        match leaf {
            Leaf::Number => self.number_made(text),
            Leaf::Text => self.spelled(text),
            Leaf::True => Ok(self.plain(TypeEntry::True)),
            Leaf::False => Ok(self.plain(TypeEntry::False)),
            Leaf::Null => Ok(self.plain(TypeEntry::Null)),
            Leaf::Name => Err(TooHeavy),
        }
    }

    // The type of a name, by what a register told of it.
    pub fn told_made(&mut self, found: Option<Told>, room: &[TypeEntry]) -> Result<Root, TooHeavy>
        ensures lent { self.new.entries.ghost_name ≡ self.old.entries.ghost_name }
        ensures makes { MakesTold self.old found room.now self.new result }
    {
        // the first two arms apart: joined, the proof loses what stands in the answer
        match found {
            None => Ok(self.plain(TypeEntry::Any)),
            Some(Told::Scheme(_)) => Ok(self.plain(TypeEntry::Any)),
            Some(Told::Typed(made)) => self.brought(room, made),
        }
    }
}
