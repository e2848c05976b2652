// Function types made in the type table.
ghost use Rattle.std.specs.Prelude.{◌≤◌, Decides};
ghost use Rattle.building.specs.Made.{Kept, MakesFunction, NoneLeaves};

use crate::put::put;
use types::compare::run_below;
use types::entries::{Root, TypeEntry};

// How many parameters a function type can have.
const PARAMETERS: usize = 8;

// Whether a function type can have so many parameters.
fn is_few(parameters: usize) -> bool
    ensures { Decides result (parameters ≤ 8) }
{
    parameters <= PARAMETERS
}

// The function type of some parameters and a result, whose parts stand below `used`.
// None, and nothing is written, where there are over eight parameters, or where they and the result do not fit in from `used`
// on.
pub fn function_of(
    types: &mut [TypeEntry],
    used: usize,
    parameters: &[TypeEntry],
    res: TypeEntry,
) -> Option<Root>
    ensures made { MakesFunction types.old types.new used parameters.now res result }
    ensures kept { Kept types.old types.new used }
    ensures refused { NoneLeaves types.old types.new result }
{
    if !is_few(parameters.len()) {
        return None;
    }
    // The room for all of them is looked for before one is written.
    if !run_below(used, parameters.len() + 1, types.len()) {
        return None;
    }
    let result_at = put(types, used, parameters)?;
    let end = put(types, result_at, &[res])?;
    Some(Root {
        entry: TypeEntry::Function {
            first: used,
            count: parameters.len(),
        },
        used: end,
    })
}
