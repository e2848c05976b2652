// The types of number literals and string literals.
ghost use Rattle.std.specs.Prelude.{◌≡◌, ◌≤◌, pos, ◌+ℤ◌};
ghost use Rattle.building.specs.Literals.{GivesNumber, MakesString};
ghost use Rattle.building.specs.Made.{Kept};

use crate::put::put_one;
use lexer::decimal::decimal;
use lexer::decimals::BIAS;
use lexer::read::Decoder;
use types::entries::{Root, TypeEntry};

// The exponent of a decimal, from its power.
fn exponent_of(power: u16) -> i16
    requires { power ≤ 590 }
    ensures { result +ℤ pos 300 ≡ pos power }
{
    power as i16 - BIAS as i16
}

// The type of the number that a text writes. None where it writes none. No From for a decimal: both types are of other
// crates.
pub fn number_of(text: &[u8]) -> Option<TypeEntry>
    ensures { GivesNumber text.now result }
{
    let d = decimal(text)?;
    Some(TypeEntry::NumberLiteral {
        digits: d.digits,
        exponent: exponent_of(d.power),
    })
}

// The type of the string that a text writes, its code units from `used` on. None where they do not fit in.
// Where the text is no string, the answer is free.
pub fn string_of(types: &mut [TypeEntry], used: usize, text: &[u8]) -> Option<Root>
    ensures made { MakesString types.old types.new used text.now result }
    ensures kept { Kept types.old types.new used }
{
    if used > types.len() {
        return None;
    }
    let decoder = Decoder { text, at: 1 };
    let mut end = used;
    for unit in decoder {
        end = put_one(types, end, TypeEntry::CodeUnit(unit))?;
    }
    Some(Root {
        entry: TypeEntry::StringLiteral {
            first: used,
            count: end - used,
        },
        used: end,
    })
}
