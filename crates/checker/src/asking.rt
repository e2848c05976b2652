// Conditions: each that is not met is a finding.
ghost use Rattle.std.specs.Prelude.{◌≡◌};
ghost use Rattle.checker.specs.Askings.{AsksBound, AsksCompare, AsksEither, AsksFits, AsksInfix, AsksPrefix, AsksThat};

use crate::conditions::{comparable, meets_number_or_string};
use crate::finding::{Finding, Kind};
use crate::first::First;
use crate::rules::Rule;
use crate::store::Store;
use crate::walk::Operand;
use parser::symbols::Prefix;
use registers::told::Told;
use types::entries::{Root, TypeEntry};
use types::meeting::meets;

impl<'a> First<'a, Finding> {
    // A finding, where a condition is not met.
    fn ask(&mut self, met: bool, kind: Kind, place: usize)
        ensures lent { self.new.slots.ghost_name ≡ self.old.slots.ghost_name }
        ensures asked { AsksThat self.old met kind place self.new }
    {
        if !met {
            self.add(Finding { kind, place });
        }
    }

    // Asks that the name at a place is bound, by what a register told of it.
    pub fn ask_bound(&mut self, place: usize, found: Option<Told>)
        ensures lent { self.new.slots.ghost_name ≡ self.old.slots.ghost_name }
        ensures asked { AsksBound self.old place found self.new }
    {
        self.ask(found.is_some(), Kind::UnknownName, place);
    }

    // Asks an operand for a type without parts.
    pub fn ask_fits(&mut self, store: &Store, v: Operand, asked: TypeEntry)
        ensures lent { self.new.slots.ghost_name ≡ self.old.slots.ghost_name }
        ensures asked { AsksFits self.old store.now v asked self.new }
    {
        let asked = Root::without_parts(asked);
        let met = meets(store.entries, store.plain(v.entry), asked);
        self.ask(met, Kind::Clash, v.place);
    }

    // Asks an operand for `number | string`.
    fn ask_number_or_string(&mut self, store: &Store, v: Operand)
        ensures lent { self.new.slots.ghost_name ≡ self.old.slots.ghost_name }
        ensures asked { AsksEither self.old store.now v self.new }
    {
        let met = meets_number_or_string(store.entries, store.plain(v.entry));
        self.ask(met, Kind::Clash, v.place);
    }

    // Asks for two operands that can be compared.
    fn ask_comparable(&mut self, store: &Store, left: Operand, right: Operand)
        ensures lent { self.new.slots.ghost_name ≡ self.old.slots.ghost_name }
        ensures asked { AsksCompare self.old store.now left right self.new }
    {
        let met = comparable(
            store.entries,
            store.plain(left.entry),
            store.plain(right.entry),
        );
        self.ask(met, Kind::Clash, right.place);
    }

    // What an operator before its operand asks.
    pub fn ask_prefix(&mut self, store: &Store, op: Prefix, v: Operand)
        ensures lent { self.new.slots.ghost_name ≡ self.old.slots.ghost_name }
        ensures asked { AsksPrefix self.old store.now op v self.new }
    {
        match op {
            Prefix::Not => self.ask_fits(store, v, TypeEntry::Boolean),
            Prefix::Negate => self.ask_fits(store, v, TypeEntry::Number),
            Prefix::Typeof => {}
        }
    }

    // What the rule of an operator between its operands asks.
    pub fn ask_infix(&mut self, store: &Store, rule: Rule, left: Operand, right: Operand)
        ensures lent { self.new.slots.ghost_name ≡ self.old.slots.ghost_name }
        ensures asked { AsksInfix self.old store.now rule left right self.new }
    {
        match rule {
            Rule::Arithmetic => {
                self.ask_fits(store, left, TypeEntry::Number);
                self.ask_fits(store, right, TypeEntry::Number);
            }
            Rule::Comparison => self.ask_comparable(store, left, right),
            Rule::Logical => self.ask_fits(store, left, TypeEntry::Boolean),
            Rule::LeftNumber => self.ask_fits(store, right, TypeEntry::Number),
            Rule::LeftString => self.ask_fits(store, right, TypeEntry::String),
            Rule::RightNumber => self.ask_fits(store, left, TypeEntry::Number),
            Rule::RightString => self.ask_fits(store, left, TypeEntry::String),
            Rule::BothOpen => {
                self.ask_number_or_string(store, left);
                self.ask_number_or_string(store, right);
            }
        }
    }
}
