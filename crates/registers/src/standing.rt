// What the library binds its names to.
ghost use Rattle.std.specs.Prelude.{◌≡◌, ◌<◌, length, Some};
ghost use Rattle.types.specs.Types.{function};
ghost use Rattle.registers.specs.Meaning.{Fit};
ghost use Rattle.registers.specs.Standings.{basic_entry, basic_type, basic_types, binding_of};
ghost use Rattle.registers.specs.Telling.{MadeIn, Tells};

use crate::register::ROOM;
use crate::told::{Scheme, Told};
use types::entries::{Root, TypeEntry};

// The types without parts that the library has.
#[derive(Clone, Copy, PartialEq, Eq, Debug)]
pub enum Basic {
    Any,
    Number,
    String,
    Boolean,
    Undefined,
}

// A scheme, a type without parts, or a function type: its parameters and its result.
#[derive(Clone, Copy)]
pub enum Standing {
    Scheme(Scheme),
    Plain(Basic),
    Function(&'static [Basic], Basic),
}

impl From<Basic> for TypeEntry {
    ghost from_gives = { λ t e. e ≡ basic_entry t };

    fn from(t: Basic) -> Self {
        match t {
            Basic::Any => TypeEntry::Any,
            Basic::Number => TypeEntry::Number,
            Basic::String => TypeEntry::String,
            Basic::Boolean => TypeEntry::Boolean,
            Basic::Undefined => TypeEntry::Undefined,
        }
    }
}

// A function type of types without parts: its parameters are written into `room`, and its result after them. Not by the one
// of `building`, which takes entries.
fn told_function(parameters: &[Basic], last: Basic, room: &mut [TypeEntry; ROOM]) -> Root
    requires { length parameters.now < ROOM }
    ensures { MadeIn room.new (function (basic_types parameters.now) (basic_type last)) result }
{
    // By index: of what is written through `iter_mut` zipped with the parameters, a proof would know the length alone.
    for (i, parameter) in parameters.iter().enumerate() {
        room[i] = TypeEntry::from(*parameter);
    }
    let count = parameters.len();
    room[count] = TypeEntry::from(last);
    Root {
        entry: TypeEntry::Function { first: 0, count },
        used: count + 1,
    }
}

// The binding as a register tells it. The parts of a function type are written into `room`.
#[tactic(auto, using(crate::proofs::Basics::few_parameters, crate::proofs::Basics::plain_made))]
pub(crate) fn told(standing: Standing, room: &mut [TypeEntry; ROOM]) -> Told
    requires { Fit (binding_of standing) }
    ensures { Tells (Some (binding_of standing)) (Some result) room.new }
{
    match standing {
        Standing::Scheme(scheme) => Told::Scheme(scheme),
        Standing::Plain(t) => Told::Typed(Root::without_parts(TypeEntry::from(t))),
        Standing::Function(parameters, last) => Told::Typed(told_function(parameters, last, room)),
    }
}
