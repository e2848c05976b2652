// The type table: which types its entries hold, and whether two of them have a common value.
#![tactic(auto)]

ghost use Rattle.types.specs.Examples.{ExamplesHold};
ghost use Rattle.types.specs.Table.{LowerOnly, OneType};

pub mod compare;
pub mod entries;
pub mod kinds;
pub mod meeting;

// The worked examples of types that meet, and of types that do not, hold of the definitions.
pub fn examples_hold()
    ensures { ExamplesHold }
{}

// An entry of a type table holds at most one type.
pub fn entries_hold_one_type()
    ensures { OneType }
{}

// What an entry holds rests only on the entries below an index, so a write above changes nothing.
pub fn entries_rest_on_lower_ones()
    ensures { LowerOnly }
{}
