// The rules on the tokens of a whole sheet.
ghost use Rattle.std.specs.Prelude.{◌≡◌, ℕ, ◌+◌, ◌≤◌, List, length, Decides};
ghost use Rattle.lexer.specs.Reading.{Given, Finished, Reads};
ghost use Rattle.lexer.specs.Scanning.{FeedBetween, Scans};
ghost use Rattle.lexer.specs.Counting.{Breaks, Tallied};
ghost use Rattle.lexer.specs.Tallies.{given, Counted, Starts, Counts};

use crate::read::{Reader, Token};
use crate::reasons::Reason;
use crate::refusal::Refusal;
use crate::runs::after;

// No sheet has more bytes.
const SHEET_LIMIT: usize = 16384;

// No sheet has more tokens.
pub const TOKEN_LIMIT: usize = 4096;

const RETURN: &[u8] = b"return";

const ARROW: &[u8] = b"=>";

// What was seen of a sheet's tokens.
#[derive(Clone, Copy, Default)]
struct Tally<'a> {
    // how many tokens
    count: usize,
    // the place of the 4,097th, if there are so many
    over: Option<usize>,
    // the first token that a line feed parts from the one before it, where none may
    line: Option<usize>,
    // the last token, if there is one
    last: Option<Token<'a>>,
}

// Whether a line feed stands from one place on and before another.
fn has_feed(sheet: &[u8], from: usize, to: usize) -> bool
    ensures { Decides result (FeedBetween sheet.now from to) }
{
    let before = &sheet[..to.min(sheet.len())];
    after(before, from).contains(&b'\n')
}

impl<'a> Tally<'a> {
    // Whether a line feed parts a token from the one before it, which ends at `from`, where none may.
    fn breaks(self, sheet: &[u8], from: usize, t: Token) -> bool
        ensures { Decides result (Breaks self.entry.last sheet.now from t.entry) }
    {
        self.last.is_some_and(|last| {
            (last.text == RETURN || t.text == ARROW) && has_feed(sheet, from, t.at)
        })
    }

    // One token more; the tokens before it end at `from`. The count is exact, as a sheet that is not too long has no more
    // tokens than bytes; of a longer one, nothing is said.
    fn add(&mut self, sheet: &[u8], from: usize, t: Token<'a>)
        ensures { (next : ℕ) → length sheet.now ≤ 16384 → Tallied sheet.now from self.old → Given sheet.now from t.entry next → Tallied sheet.now next self.new × (self.new.count ≡ self.old.count + 1) }
    {
        if self.count == TOKEN_LIMIT {
            self.over = Some(t.at);
        }
        if self.line.is_none() && self.breaks(sheet, from, t) {
            self.line = Some(t.at);
        }
        self.count = self.count.saturating_add(1);
        self.last = Some(t);
    }

    // The first fault of a sheet whose tokens are all counted.
    fn verdict(self) -> Result<usize, Refusal>
        ensures { (sheet : List ℕ) (at : ℕ) → length sheet ≤ 16384 → Tallied sheet at self.entry → Finished sheet at → Scans sheet result }
    {
        if let Some(place) = self.line {
            return Err(Reason::LineFeed.at(place));
        }
        if let Some(place) = self.over {
            return Err(Reason::ManyTokens.at(place));
        }
        Ok(self.count)
    }
}

// A reader of a sheet, and what was seen of the tokens that it gave.
#[derive(Drop)]
pub struct Scanner<'a> {
    reader: Reader<'a>,
    tally: Tally<'a>,
}

impl<'a> Scanner<'a> {
    // Before the first token of a sheet; refused where that is too long.
    pub fn start(sheet: &'a [u8]) -> Result<Self, Refusal>
        ensures { Starts sheet.now result }
    {
        if sheet.len() > SHEET_LIMIT {
            return Err(Reason::LongSheet.at(SHEET_LIMIT));
        }
        Ok(Scanner {
            reader: Reader { sheet, at: 0 },
            tally: Tally::default(),
        })
    }

    // How many tokens were given.
    pub fn count(&self) -> usize
        ensures { result ≡ given self.now }
    {
        self.tally.count
    }

    // The next token, which is then counted.
    pub fn next(&mut self) -> Result<Option<Token<'a>>, Refusal>
        ensures sheet { self.new.reader.sheet.now ≡ self.old.reader.sheet.now }
        ensures reads { Reads self.old.reader.sheet.now self.old.reader.at result self.new.reader.at }
        ensures counts { Counted self.old → Counts self.old result self.new }
    {
        let from = self.reader.at;
        let next = self.reader.next()?;
        if let Some(t) = next {
            self.tally.add(self.reader.sheet, from, t);
        }
        Ok(next)
    }

    // How many tokens the sheet has, or the first fault of those that its tokens can have: reads what is left.
    pub fn rest(mut self) -> Result<usize, Refusal>
        ensures { Counted self.entry → Scans self.entry.reader.sheet.now result }
    {
        while self.next()?.is_some() {}
        self.tally.verdict()
    }
}

// The same, of a sheet from its start.
pub fn scan(sheet: &[u8]) -> Result<usize, Refusal>
    ensures { Scans sheet.now result }
{
    Scanner::start(sheet)?.rest()
}
