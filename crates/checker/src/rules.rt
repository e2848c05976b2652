// Which rule an operator between two operands goes by.
ghost use Rattle.checker.specs.Forms.{SaysRule, SaysSum};

use crate::conditions::{is_numeric, is_textual};
use parser::symbols::Operator;
use types::entries::TypeEntry;

#[derive(Clone, Copy)]
pub enum Rule {
    Arithmetic,
    Comparison,
    Logical,
    // the rules of `+`: by the left side's type, by the right side's, or by neither
    LeftNumber,
    LeftString,
    RightNumber,
    RightString,
    BothOpen,
}

// The rule of `+`: the first one whose side is as it says.
fn sum_rule(left: TypeEntry, right: TypeEntry) -> Rule
    ensures { SaysSum left right result }
{
    if is_numeric(left) {
        return Rule::LeftNumber;
    }
    if is_textual(left) {
        return Rule::LeftString;
    }
    if is_numeric(right) {
        return Rule::RightNumber;
    }
    if is_textual(right) {
        return Rule::RightString;
    }
    Rule::BothOpen
}

// The rule of an operator between operands of these types.
pub fn rule_of(op: Operator, left: TypeEntry, right: TypeEntry) -> Rule
    ensures { SaysRule op left right result }
{
    match op {
        Operator::Add => sum_rule(left, right),
        Operator::Subtract | Operator::Multiply | Operator::Divide | Operator::Remainder => {
            Rule::Arithmetic
        }
        Operator::And | Operator::Or => Rule::Logical,
        Operator::Less
        | Operator::Greater
        | Operator::AtMost
        | Operator::AtLeast
        | Operator::Same
        | Operator::Differs => Rule::Comparison,
    }
}
