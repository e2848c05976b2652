// What a call answers, in one line.
use checker::stage::Checked;
use lexer::refusal::Refusal;
use parser::reading::Read;
use std::fmt;

#[derive(Clone, Copy, PartialEq, Eq)]
pub enum Told {
    Refused { number: u8, place: usize },
    Read { used: usize, last: Option<usize> },
    Checked { count: usize, expressions: usize },
    Entry(usize),
}

impl fmt::Display for Told {
    fn fmt<W: fmt::Write>(&self, f: &mut fmt::Formatter<W>) -> fmt::Result {
        match *self {
            Told::Refused { number, place } => write!(f, "refused {number} at {place}"),
            Told::Read { used, last: None } => write!(f, "read, {used} entries, no last"),
            Told::Read {
                used,
                last: Some(last),
            } => write!(f, "read, {used} entries, last {last}"),
            Told::Checked { count, expressions } => {
                write!(f, "counted {count}, of {expressions} expressions")
            }
            Told::Entry(index) => write!(f, "entry {index}"),
        }
    }
}

impl From<Refusal> for Told {
    fn from(refusal: Refusal) -> Told {
        Told::Refused {
            number: refusal.reason.number(),
            place: refusal.place,
        }
    }
}

// What a read answers.
pub fn told_read(answer: &Result<Read, Refusal>) -> Told {
    match answer {
        Ok(reading) => Told::Read {
            used: reading.used(),
            last: reading.last(),
        },
        Err(refusal) => Told::from(*refusal),
    }
}

// What a check answers.
pub fn told_check(answer: &Result<Checked, (Refusal, Read)>) -> Told {
    match answer {
        Ok(checked) => Told::Checked {
            count: checked.count(),
            expressions: checked.expressions(),
        },
        Err((refusal, _)) => Told::from(*refusal),
    }
}

// What a call for a type answers.
pub fn told_type(answer: Result<usize, Refusal>) -> Told {
    match answer {
        Ok(index) => Told::Entry(index),
        Err(refusal) => Told::from(refusal),
    }
}
