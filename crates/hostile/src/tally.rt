// How often each answer was given.
use crate::told::Told;
use std::fmt;

// By the number of the refusal; 0 stands for an answer that is none.
#[derive(Clone, Copy)]
pub struct Tally {
    times: [usize; 16],
}

impl Tally {
    pub fn new() -> Self {
        Tally { times: [0; 16] }
    }

    pub fn add(&mut self, told: Told) {
        let number = match told {
            Told::Refused { number, .. } => usize::from(number),
            _ => 0,
        };
        if let Some(times) = self.times.get_mut(number) {
            *times = times.saturating_add(1);
        }
    }
}

impl fmt::Display for Tally {
    fn fmt<W: fmt::Write>(&self, f: &mut fmt::Formatter<W>) -> fmt::Result {
        for (number, times) in self.times.iter().enumerate() {
            if *times > 0 && number == 0 {
                write!(f, " answered {times}")?;
            }
            if *times > 0 && number > 0 {
                write!(f, " refused {number}: {times}")?;
            }
        }
        Ok(())
    }
}
