// Types made in the type table: literals, pairs, lists, functions, unions, parts and copies; equality and weights.
#![tactic(auto)]

ghost use Rattle.building.specs.Laws.{OnePart, OneUnion, PartTold, UnionExists, UnionOfValues};
ghost use Rattle.building.specs.Literals.{LiteralLaws};

pub mod copies;
pub mod equality;
pub mod functions;
pub mod literals;
mod members;
pub mod pairs;
pub mod parts;
mod put;
pub mod unions;
pub mod weights;

// Some types have at most one union.
pub fn unions_are_one()
    ensures { OneUnion }
{}

// Types in form have a union, and it is in form.
pub fn unions_exist()
    ensures { UnionExists }
{}

// A union has the values of its members together.
pub fn unions_join_values()
    ensures { UnionOfValues }
{}

// A type has at most one head part and one tail part.
pub fn parts_are_one()
    ensures { OnePart }
{}

// Whether a type in form has a part on a side can be told, and the part is in form.
pub fn parts_are_told()
    ensures { PartTold }
{}

// A text writes at most one number and one string; one that can be read as either writes it.
pub fn literals_are_one()
    ensures { LiteralLaws }
{}
