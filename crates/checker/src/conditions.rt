// Tests of conditions, over types in hand.
ghost use Rattle.checker.specs.Entries.{SaysBothMeet, SaysCompare, SaysNumberOrString, SaysNumeric, SaysTextual};

use types::entries::{Root, TypeEntry};
use types::meeting::meets;

// Whether a type has a number or a string among its values.
pub fn meets_number_or_string(types: &[TypeEntry], v: Root) -> bool
    ensures { SaysNumberOrString types.now v.used v.entry result }
{
    meets(types, v, Root::without_parts(TypeEntry::Number))
        || meets(types, v, Root::without_parts(TypeEntry::String))
}

// Whether two types both meet a third one, which has no parts.
fn both_meet(types: &[TypeEntry], a: Root, b: Root, e: TypeEntry) -> bool
    ensures { SaysBothMeet types.now a.used a.entry b.used b.entry e result }
{
    let asked = Root::without_parts(e);
    meets(types, a, asked) && meets(types, b, asked)
}

// Whether two types have values that can be compared: two numbers or two strings.
pub fn comparable(types: &[TypeEntry], a: Root, b: Root) -> bool
    ensures { SaysCompare types.now a.used a.entry b.used b.entry result }
{
    both_meet(types, a, b, TypeEntry::Number) || both_meet(types, a, b, TypeEntry::String)
}

// Whether the type is `number` or a number literal.
pub fn is_numeric(e: TypeEntry) -> bool
    ensures { SaysNumeric e result }
{
    matches!(e, TypeEntry::Number | TypeEntry::NumberLiteral { .. })
}

// Whether the type is `string` or a string literal.
pub fn is_textual(e: TypeEntry) -> bool
    ensures { SaysTextual e result }
{
    matches!(e, TypeEntry::String | TypeEntry::StringLiteral { .. })
}
