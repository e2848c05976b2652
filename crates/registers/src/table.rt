// The table of the library.
ghost use Rattle.std.specs.Prelude.{◌≡◌};
ghost use Rattle.registers.specs.Library.{library, library_rows};
ghost use Rattle.registers.specs.Meaning.{lines_of, look_up};
ghost use Rattle.registers.specs.Standings.{Placed, stands, table_lines};

use crate::standing::Basic::{Any, Boolean, Number, String, Undefined};
use crate::standing::Standing;
use crate::standing::Standing::{Function, Plain, Scheme};
use crate::told::Scheme::{Head, List, Pair, Tail};

// Each name with what it is bound to, in rows by the lengths of the names, from 0 on: a name that is asked for is compared
// with those of its length alone.
static ROWS: [&[(&[u8], Standing)]; 15] = [
    &[],
    &[],
    &[],
    &[(b"map", Plain(Any)), (b"NaN", Plain(Number))],
    &[
        (b"pair", Scheme(Pair)),
        (b"head", Scheme(Head)),
        (b"tail", Scheme(Tail)),
        (b"list", Scheme(List)),
    ],
    &[(b"error", Plain(Any)), (b"equal", Plain(Any))],
    &[
        (b"length", Plain(Any)),
        (b"append", Plain(Any)),
        (b"member", Plain(Any)),
        (b"remove", Plain(Any)),
        (b"filter", Plain(Any)),
        (b"prompt", Function(&[String], String)),
    ],
    &[
        (b"display", Plain(Any)),
        (b"reverse", Plain(Any)),
        (b"math_PI", Plain(Number)),
        (b"is_pair", Function(&[Any], Boolean)),
        (b"is_null", Function(&[Any], Boolean)),
        (b"is_list", Function(&[Any], Boolean)),
    ],
    &[
        (b"math_max", Plain(Any)),
        (b"math_min", Plain(Any)),
        (b"for_each", Plain(Any)),
        (b"list_ref", Plain(Any)),
        (b"Infinity", Plain(Number)),
        (b"math_abs", Function(&[Number], Number)),
        (b"math_cos", Function(&[Number], Number)),
        (b"math_exp", Function(&[Number], Number)),
        (b"math_LN2", Function(&[Number], Number)),
        (b"math_log", Function(&[Number], Number)),
        (b"math_sin", Function(&[Number], Number)),
        (b"math_tan", Function(&[Number], Number)),
        (b"math_pow", Function(&[Number, Number], Number)),
        (b"get_time", Function(&[], Number)),
    ],
    &[
        (b"draw_data", Plain(Any)),
        (b"enum_list", Plain(Any)),
        (b"undefined", Plain(Undefined)),
        (b"is_number", Function(&[Any], Boolean)),
        (b"is_string", Function(&[Any], Boolean)),
        (b"math_acos", Function(&[Number], Number)),
        (b"math_asin", Function(&[Number], Number)),
        (b"math_atan", Function(&[Number], Number)),
        (b"math_cbrt", Function(&[Number], Number)),
        (b"math_ceil", Function(&[Number], Number)),
        (b"math_cosh", Function(&[Number], Number)),
        (b"math_LN10", Function(&[Number], Number)),
        (b"math_log2", Function(&[Number], Number)),
        (b"math_sign", Function(&[Number], Number)),
        (b"math_sinh", Function(&[Number], Number)),
        (b"math_sqrt", Function(&[Number], Number)),
        (b"math_tanh", Function(&[Number], Number)),
        (b"math_imul", Function(&[Number, Number], Number)),
        (b"parse_int", Function(&[String, Number], Number)),
        (b"stringify", Function(&[Any], String)),
    ],
    &[
        (b"build_list", Plain(Any)),
        (b"remove_all", Plain(Any)),
        (b"accumulate", Plain(Any)),
        (b"math_LOG2E", Plain(Number)),
        (b"math_SQRT2", Plain(Number)),
        (b"is_boolean", Function(&[Any], Boolean)),
        (b"math_acosh", Function(&[Number], Number)),
        (b"math_asinh", Function(&[Number], Number)),
        (b"math_atanh", Function(&[Number], Number)),
        (b"math_clz32", Function(&[Number], Number)),
        (b"math_expm1", Function(&[Number], Number)),
        (b"math_floor", Function(&[Number], Number)),
        (b"math_log1p", Function(&[Number], Number)),
        (b"math_log10", Function(&[Number], Number)),
        (b"math_round", Function(&[Number], Number)),
        (b"math_trunc", Function(&[Number], Number)),
        (b"math_atan2", Function(&[Number, Number], Number)),
        (b"math_hypot", Function(&[Any], Number)),
    ],
    &[
        (b"math_LOG10E", Plain(Number)),
        (b"is_function", Function(&[Any], Boolean)),
        (b"math_fround", Function(&[Number], Number)),
        (b"math_random", Function(&[], Number)),
    ],
    &[
        (b"math_SQRT1_2", Plain(Number)),
        (b"is_undefined", Function(&[Any], Boolean)),
    ],
    &[],
    &[(b"list_to_string", Plain(Any))],
];

// What the first row that has the name binds it to.
fn find(table: &[(&[u8], Standing)], name: &[u8]) -> Option<Standing>
    ensures { stands result ≡ look_up (table_lines table.now) name.now }
{
    table
        .iter()
        .find(|(text, _)| *text == name)
        .map(|(_, standing)| *standing)
}

// What the library binds a name to, by a table whose rows stand so.
fn find_in(rows: &[&[(&[u8], Standing)]], name: &[u8]) -> Option<Standing>
    requires { Placed (lines_of library_rows) 0 rows.now }
    ensures { stands result ≡ library name.now }
{
    let row = rows.get(name.len())?;
    find(row, name)
}

// What the library binds a name to.
pub fn standing_of(name: &[u8]) -> Option<Standing>
    ensures { stands result ≡ library name.now }
{
    find_in(&ROWS, name)
}
