// Why a call is refused, and where.
ghost use Rattle.std.specs.Prelude.{◌≡◌, Some};
ghost use Rattle.lexer.specs.Refusals.{number_of, words_of};

use std::fmt;

// Each with its number. 8 to 11 and 15 to 19 are kept for parts of the language that are not in yet.
#[derive(Clone, Copy, PartialEq, Eq, Debug)]
pub enum Reason {
    // a table under its size
    ShortTable = 1,
    // a sheet over 16,384 bytes
    LongSheet = 2,
    // no token, or an unclosed string or comment
    NoToken = 3,
    // a name over 32 bytes, a string over 255 code units, a number out of range
    LargeToken = 4,
    // a line feed after `return`, or before `=>`
    LineFeed = 5,
    // over 4,096 tokens
    ManyTokens = 6,
    // not a program
    NoProgram = 7,
    // a load over 8,192
    HeavySheet = 12,
    // an entry of a table that no call left there
    Damaged = 13,
    // no expression of this number
    NoExpression = 14,
}

impl Reason {
    // The number by which a refusal is reported, in C and in what the programs print.
    pub fn number(self) -> u8
        ensures { result ≡ number_of self }
    {
        self as u8
    }
}

// What a refusal says to the person who reads it.
impl fmt::Display for Reason {
    ghost output = { λ reason. Some (words_of reason) };

    fn fmt<W: fmt::Write>(&self, f: &mut fmt::Formatter<W>) -> fmt::Result {
        f.pad(match self {
            Reason::ShortTable => "a table is too short",
            Reason::LongSheet => "the sheet has over 16,384 bytes",
            Reason::NoToken => "no token begins here, or a string or comment is not closed",
            Reason::LargeToken =>
                "a name over 32 bytes, a string over 255 code units, or a number out of range",
            Reason::LineFeed => "a line feed after `return`, or before `=>`",
            Reason::ManyTokens => "the sheet has over 4,096 tokens",
            Reason::NoProgram => "not a program, or a part of the language that is not in yet",
            Reason::HeavySheet => "the sheet's types are too large",
            Reason::Damaged => "a table was altered",
            Reason::NoExpression => "no such expression",
        })
    }
}
