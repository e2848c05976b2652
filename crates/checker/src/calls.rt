// The calls of a run, and what they answer.
use lexer::refusal::Refusal;

// One call. Its sheet is lent.
#[derive(Clone, Copy)]
pub enum Call<'a> {
    // reads a sheet, and checks it
    Check { sheet: &'a [u8] },
}

// What one call answers. It is no `Option<Result<..>>`, which is no plainer: the answers have names, and calls of another
// kind will answer otherwise.
#[derive(Clone, Copy)]
pub enum Answer {
    // no call was made: a lent list has to hold something before there is an answer
    Blank,
    // the sheet could not be read
    ReadRefused(Refusal),
    // it was read, and could not be checked
    CheckRefused(Refusal),
    // how many findings and how many expressions it has
    Checked { count: usize, expressions: usize },
}
