// Lines and columns.
ghost use Rattle.std.specs.Prelude.{◌≡◌, take, Some};
ghost use Rattle.lexer.specs.Positions.{line_after, column_after, position_text};

use std::fmt;

// A line and a column, both counted from 1; a column counts bytes.
#[derive(Clone, Copy, Debug)]
pub struct Position {
    pub line: usize,
    pub column: usize,
}

// The line and column of a place of a sheet; those of its end for a place beyond it.
pub fn position_of(sheet: &[u8], place: usize) -> Position
    ensures line { result.line ≡ line_after (take place sheet.now) }
    ensures column { result.column ≡ column_after (take place sheet.now) }
{
    let mut line = 1;
    let mut column = 1;
    for b in &sheet[..place.min(sheet.len())] {
        if *b == b'\n' {
            line += 1;
            column = 1;
        } else {
            column += 1;
        }
    }
    Position { line, column }
}

impl fmt::Display for Position {
    ghost output = { λ p. Some (position_text p.line p.column) };

    fn fmt<W: fmt::Write>(&self, f: &mut fmt::Formatter<W>) -> fmt::Result {
        let line = self.line;
        let column = self.column;
        write!(f, "{line}:{column}")
    }
}
