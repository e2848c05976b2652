// Findings.
ghost use Rattle.std.specs.Prelude.{◌≡◌};
ghost use Rattle.checker.specs.Findings.{AllBlank, number_of};

// The discriminants are the numbers by which findings are reported, in C and in what `calls` prints.
#[derive(Clone, Copy, PartialEq, Eq, Debug)]
pub enum Kind {
    // no finding: a lent list, of whatever length, has to hold something
    Blank = 0,
    // a type condition or comparison that is not met
    Clash = 1,
    // a name that its register lacks
    UnknownName = 2,
}

impl Kind {
    pub fn number(self) -> u8
        ensures { result ≡ number_of self }
    {
        self as u8
    }
}

#[derive(Clone, Copy, PartialEq, Eq, Debug)]
pub struct Finding {
    pub kind: Kind,
    pub place: usize,
}

pub const BLANK: Finding = Finding {
    kind: Kind::Blank,
    place: 0,
};

// Makes each finding of a list blank. It is a function since its contract is what a check promises of a refused list.
pub(crate) fn blank_out(findings: &mut [Finding])
    ensures { AllBlank findings.new }
{
    findings.fill(BLANK);
}
