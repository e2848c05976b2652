// A sheet that was checked.
ghost use Rattle.std.specs.Prelude.{◌≡◌};

// What a check found: it is made by a check alone.
#[derive(Drop)]
pub struct Checked {
    count: usize,
    expressions: usize,
    used: usize,
}

impl Checked {
    pub(crate) fn new(count: usize, expressions: usize, used: usize) -> Self
        ensures { result ≡ record { count = count; expressions = expressions; used = used } }
    {
        Checked {
            count,
            expressions,
            used,
        }
    }

    // How many findings there are.
    pub fn count(&self) -> usize
        ensures { result ≡ self.now.count }
    {
        self.count
    }

    // How many expressions there are.
    pub fn expressions(&self) -> usize
        ensures { result ≡ self.now.expressions }
    {
        self.expressions
    }

    // How many entries of the type table are parts of types.
    pub(crate) fn used(&self) -> usize
        ensures { result ≡ self.now.used }
    {
        self.used
    }
}
