// Pseudo-random numbers, the same in every run.

// A xorshift of 64 bits. Its state is never 0.
#[derive(Clone, Copy)]
pub struct Draw {
    state: u64,
    // whether an index may be any number
    wild: bool,
}

impl Draw {
    pub fn new(seed: u64, wild: bool) -> Self {
        let state = seed.wrapping_mul(0x9E37_79B9_7F4A_7C15);
        Draw {
            state: if state == 0 { 1 } else { state },
            wild,
        }
    }

    // Any number.
    pub fn any(&mut self) -> u64 {
        let mut x = self.state;
        x ^= x << 13;
        x ^= x >> 7;
        x ^= x << 17;
        self.state = x;
        x
    }

    // A number below `end`, or 0 where there is none.
    pub fn below(&mut self, end: usize) -> usize {
        let x = (self.any() >> 8) as usize;
        x.checked_rem(end).unwrap_or(0)
    }

    pub fn flips(&mut self) -> bool {
        self.below(2) == 0
    }

    // An index below `end`, where it is not wild; else a low one, one about the length of a table, or any.
    pub fn index(&mut self, end: usize) -> usize {
        if !self.wild {
            return self.below(end);
        }
        match self.below(4) {
            0 => self.below(16),
            1 => self.below(9000),
            2 => usize::MAX - self.below(16),
            _ => self.any() as usize,
        }
    }
}
