// The types of the expressions so far, in the type table: the parts of types stand from the bottom up, the types of the
// expressions from entry 8,191 down, by their numbers.
ghost use Rattle.std.specs.Prelude.{◌≡◌, ℕ, ◌+◌, ◌-◌, ◌≤◌, length};
ghost use Rattle.building.specs.Made.{SaysWeight};
ghost use Rattle.checker.specs.Stores.{Brings, KeepsType, Spells, Unites};

use building::copies::copied;
use building::literals::string_of;
use building::unions::union_of_two;
use building::weights::weight_within;
use parser::tables::TYPES;
use types::entries::{Root, TypeEntry};

// That the weights of the types of a sheet are over 8,192 together. It also stands where a token writes no type, which a tree
// that reading left never has.
#[derive(Clone, Copy)]
pub struct TooHeavy;

// The type table, which is lent. Of a slice that is lent in a struct a proof knows only what the clauses tell, so each method
// that writes says in `lent` that it is the same one.
#[derive(Drop)]
pub struct Store<'a> {
    pub entries: &'a mut [TypeEntry],
    // where the free entries begin
    pub used: usize,
    // how many expressions have ended
    pub count: usize,
    // the weights of their types together
    pub load: usize,
}

// Where the type of an expression stands, by the expression's number.
pub fn head_of(number: usize) -> usize
    ensures { result ≡ 8191 - number }
{
    (TYPES - 1).saturating_sub(number)
}

impl<'a> Store<'a> {
    // How many entries parts may use.
    fn limit(&self) -> usize
        ensures within { result ≤ length self.now.entries.now }
        ensures limit { self.now.count ≤ 8192 → 8192 ≤ length self.now.entries.now → result ≡ 8192 - self.now.count }
    {
        self.entries.len().min(TYPES.saturating_sub(self.count))
    }

    // Here and in the next two the part below the limit is lent to one call: a closure for that call would save no line.

    // The union of two types.
    pub fn united(&mut self, a: TypeEntry, b: TypeEntry) -> Result<Root, TooHeavy>
        ensures lent { self.new.entries.ghost_name ≡ self.old.entries.ghost_name }
        ensures united { Unites self.old a b self.new result }
    {
        let limit = self.limit();
        union_of_two(&mut self.entries[..limit], self.used, a, b).ok_or(TooHeavy)
    }

    // The type of the string that a text writes.
    pub fn spelled(&mut self, text: &[u8]) -> Result<Root, TooHeavy>
        ensures lent { self.new.entries.ghost_name ≡ self.old.entries.ghost_name }
        ensures spelled { Spells self.old text.now self.new result }
    {
        let limit = self.limit();
        string_of(&mut self.entries[..limit], self.used, text).ok_or(TooHeavy)
    }

    // The type that a register told, whose parts stand in other entries.
    pub fn brought(&mut self, others: &[TypeEntry], made: Root) -> Result<Root, TooHeavy>
        ensures lent { self.new.entries.ghost_name ≡ self.old.entries.ghost_name }
        ensures brought { Brings self.old others.now made self.new result }
    {
        let limit = self.limit();
        copied(&mut self.entries[..limit], self.used, others, made).ok_or(TooHeavy)
    }

    // The weight of a type in hand, or 8,193 where it is more. Most types have no parts, and need no call.
    fn weight_of(&self, made: Root) -> usize
        ensures { SaysWeight self.now.entries.now made.used made.entry 8193 result }
    {
        match made.entry {
            TypeEntry::Any
            | TypeEntry::Number
            | TypeEntry::NumberLiteral { .. }
            | TypeEntry::String
            | TypeEntry::Boolean
            | TypeEntry::True
            | TypeEntry::False
            | TypeEntry::Undefined
            | TypeEntry::Null => 1,
            _ => weight_within(self.entries, made, TYPES + 1),
        }
    }

    // Keeps a type in hand as that of the next expression.
    pub fn keep(&mut self, made: Root) -> Result<(), TooHeavy>
        ensures lent { self.new.entries.ghost_name ≡ self.old.entries.ghost_name }
        ensures kept { KeepsType self.old made self.new result }
    {
        let load = self.load.saturating_add(self.weight_of(made));
        let count = self.count;
        if load > TYPES || count >= TYPES || self.entries.len() < TYPES {
            return Err(TooHeavy);
        }
        self.used = made.used;
        self.count = count + 1;
        self.load = load;
        // By index: of what is written through `get_mut`, a proof would know the length alone.
        self.entries[head_of(count)] = made.entry;
        Ok(())
    }
}
