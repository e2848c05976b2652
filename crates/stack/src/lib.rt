// A stack over a lent slice, for every kind of entry. No call asks anything of its caller.
#![tactic(auto)]

ghost use Rattle.std.specs.Prelude.{◌≡◌, ◌<◌, ◌≤◌, List, [], ◌∷◌, length, MatchOption};
ghost use Rattle.stack.specs.Items.{held, room};

// The caller lends the slots, since reading and checking allocate nothing: so it is a slice and a count, and no `Vec`.
#[derive(Drop)]
pub struct Stack<'a, T> {
    pub slots: &'a mut [T],
    // how many of them are in use, from the first on
    pub len: usize,
}

// Each method that changes the stack says that its room stays (`space`): of a stack that a call changes, a proof knows
// only what the call's clauses tell.
#[tactic(auto, using(crate::proofs::Laws::stacked))]
impl<'a, T: Copy> Stack<'a, T> {
    pub fn new(slots: &'a mut [T]) -> Self
        ensures none { held result ≡ [] }
        ensures space { room result ≡ length slots.old }
    {
        Stack { slots, len: 0 }
    }

    // One entry more on top, where there is room; nothing where there is none.
    pub fn push(&mut self, x: T)
        ensures holds { length (held self.old) < room self.old → held self.new ≡ x ∷ held self.old }
        ensures full { room self.old ≤ length (held self.old) → held self.new ≡ held self.old }
        ensures space { room self.new ≡ room self.old }
    {
        // By index: of what is written through `get_mut`, a proof would know the length alone.
        if self.len < self.slots.len() {
            self.slots[self.len] = x;
            self.len += 1;
        }
    }

    // Takes the top entry off; `None` where there is none.
    pub fn pop(&mut self) -> Option<T>
        ensures holds { MatchOption result ((held self.old ≡ []) × (held self.new ≡ [])) (λ x. held self.old ≡ x ∷ held self.new) }
        ensures space { room self.new ≡ room self.old }
    {
        let n = self.depth().checked_sub(1)?;
        let x = self.slots[n];
        self.len = n;
        Some(x)
    }

    // The top entry, left where it is; `None` where there is none.
    pub fn top(&self) -> Option<T>
        ensures { MatchOption result (held self.now ≡ []) (λ x. ((rest : List T) × (held self.now ≡ x ∷ rest))) }
    {
        let n = self.depth().checked_sub(1)?;
        Some(self.slots[n])
    }

    // How many entries it holds.
    pub fn depth(&self) -> usize
        ensures { result ≡ length (held self.now) }
    {
        self.len.min(self.slots.len())
    }
}
