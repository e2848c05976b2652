// What holds of typings and findings.
ghost use Rattle.checker.specs.Laws.{FindingsTell, OneTyping, TypesInForm, TypingExists};

// An expression has at most one type, and sets one list of conditions.
pub fn typings_are_one()
    ensures { OneTyping }
{}

// In a sound scope the program of a sheet has a typing.
pub fn typings_exist()
    ensures { TypingExists }
{}

// In a sound scope the types of a program's expressions are in form.
pub fn types_are_in_form()
    ensures { TypesInForm }
{}

// Conditions have one list of findings, and it is empty just where each condition is met.
pub fn findings_tell()
    ensures { FindingsTell }
{}
