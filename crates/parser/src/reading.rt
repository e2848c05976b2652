// What a call of `read` gives.
ghost use Rattle.std.specs.Prelude.{◌≡◌};
ghost use Rattle.parser.specs.Table.{last_of};

// The program that a tree table holds: how many entries are in use. A program ends with a statement, so the last entry in use
// is its last statement.
#[derive(Drop)]
pub struct Read {
    used: usize,
}

impl Read {
    pub(crate) fn new(used: usize) -> Read
        ensures { result ≡ record { used = used } }
    {
        Read { used }
    }

    // How many entries of the tree table are in use.
    pub fn used(&self) -> usize
        ensures { result ≡ self.now.used }
    {
        self.used
    }

    // The index of the last statement; `None` where there is none.
    pub fn last(&self) -> Option<usize>
        ensures { result ≡ last_of self.now.used }
    {
        self.used.checked_sub(1)
    }
}
