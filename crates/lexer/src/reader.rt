// A reader over a sheet. Its tokens are parts of the sheet.
ghost use Rattle.std.specs.Prelude.{◌≡◌, ◌<◌};
ghost use Rattle.lexer.specs.Reading.{OneReading, Reads};

use crate::gaps::gap_len;
use crate::read::{Reader, Token};
use crate::reasons::Reason;
use crate::refusal::Refusal;
use crate::runs::after;
use crate::sizes::is_small;
use crate::tokens::{Found, token};

impl<'a> Reader<'a> {
    // The next token, or nothing at the end of the sheet.
    pub fn next(&mut self) -> Result<Option<Token<'a>>, Refusal>
        ensures sheet { self.new.sheet.now ≡ self.old.sheet.now }
        ensures reads { Reads self.old.sheet.now self.old.at result self.new.at }
    {
        let left = after(self.sheet, self.at);
        let gap = gap_len(left);
        let at = self.at + gap;
        let rest = &left[gap..];
        if rest.is_empty() {
            return Ok(None);
        }
        let Found { kind, len } = token(rest).ok_or(Reason::NoToken.at(at))?;
        let text = &rest[..len];
        if !is_small(kind, text) {
            return Err(Reason::LargeToken.at(at));
        }
        self.at = at + len;
        Ok(Some(Token { kind, at, text }))
    }
}

// That a sheet is read in one way.
pub fn one_reading()
    ensures { OneReading }
{}
