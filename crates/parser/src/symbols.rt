// What the tokens are to the grammar.
ghost use Rattle.std.specs.Prelude.{◌≡◌, ◌<◌};
ghost use Rattle.parser.specs.Grammar.{binding, before, follow, level};

// A token that is an expression by itself.
#[derive(Clone, Copy)]
pub enum Leaf {
    Number,
    Text,
    Name,
    True,
    False,
    Null,
}

// An operator before its operand.
#[derive(Clone, Copy)]
pub enum Prefix {
    Not,
    Negate,
    Typeof,
}

// An operator between its operands.
#[derive(Clone, Copy)]
pub enum Operator {
    Multiply,
    Divide,
    Remainder,
    Add,
    Subtract,
    Less,
    Greater,
    AtMost,
    AtLeast,
    Same,
    Differs,
    And,
    Or,
}

impl Operator {
    // How tightly it binds.
    pub(crate) fn binding(self) -> usize
        ensures value { result ≡ binding self }
        ensures small { result < 8 }
    {
        match self {
            Operator::Or => 1,
            Operator::And => 2,
            Operator::Same | Operator::Differs => 3,
            Operator::Less | Operator::Greater | Operator::AtMost | Operator::AtLeast => 4,
            Operator::Add | Operator::Subtract => 5,
            Operator::Multiply | Operator::Divide | Operator::Remainder => 6,
        }
    }
}

#[derive(Clone, Copy)]
pub enum Symbol {
    // a token that no program of the language, as far as it is in, has
    Other,
    Leaf(Leaf),
    // `!` or `typeof`
    Prefix(Prefix),
    // an operator between its operands; `-` may also stand before one
    Infix(Operator),
    Open,
    Close,
    Question,
    Colon,
    Semicolon,
}

impl Symbol {
    // The operator before its operand that it is; `-` may be one.
    pub(crate) fn before(self) -> Option<Prefix>
        ensures { result ≡ before self }
    {
        match self {
            Symbol::Prefix(op) => Some(op),
            Symbol::Infix(Operator::Subtract) => Some(Prefix::Negate),
            _ => None,
        }
    }

    // What it makes of an expression that stands before it.
    pub(crate) fn follow(self) -> Option<Follow>
        ensures { result ≡ follow self }
    {
        match self {
            Symbol::Infix(op) => Some(Follow::Infix(op)),
            Symbol::Question => Some(Follow::Choice),
            _ => None,
        }
    }
}

// A token of a sheet: what it is, where it begins, and how many bytes it has.
#[derive(Clone, Copy)]
pub struct Token {
    pub symbol: Symbol,
    pub place: usize,
    pub len: usize,
}

// What can follow an expression, and make a larger one of it.
#[derive(Clone, Copy)]
pub enum Follow {
    Infix(Operator),
    Choice,
}

impl Follow {
    // How tightly the larger expression binds.
    pub(crate) fn level(self) -> usize
        ensures value { result ≡ level self }
        ensures small { result < 8 }
    {
        match self {
            Follow::Infix(op) => op.binding(),
            Follow::Choice => 0,
        }
    }
}
