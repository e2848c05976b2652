// Small sheets, and what the definitions say of them.
#![tactic(auto)]

ghost use Rattle.cases.specs.Tried.{SheetsToTry};

// What the rules find on each of these sheets, and which of these types meet, is what the language says.
pub fn sheets_to_try()
    ensures { SheetsToTry }
{}
