// A list in a lent slice: the first entries are kept, and all are counted.
ghost use Rattle.std.specs.Prelude.{◌≡◌, ◌^◌, ◌<◌, List, [], ◌∷◌, ◌++◌, length};
ghost use Rattle.checker.specs.Keeping.{Keeps};

// The list is lent and may be short, so the count, which is of all entries, stands beside it. Of a slice that is lent in a
// struct a proof knows only what the clauses tell, so each method says in `lent` that it is the same one.
#[derive(Drop)]
pub struct First<'a, T> {
    pub slots: &'a mut [T],
    pub count: usize,
}

impl<'a, T: Copy> First<'a, T> {
    // One entry more.
    pub fn add(&mut self, x: T)
        ensures lent { self.new.slots.ghost_name ≡ self.old.slots.ghost_name }
        ensures kept { (d : T) (xs : List T) → Keeps d self.old xs → length xs < 2 ^ 32 → Keeps d self.new (xs ++ x ∷ []) }
    {
        // By index: of what is written through `get_mut`, a proof would know the length alone.
        if self.count < self.slots.len() {
            self.slots[self.count] = x;
        }
        self.count = self.count.saturating_add(1);
    }
}
