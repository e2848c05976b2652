// What a host that is written in C links: each export makes the call of the same name in `host`.
#![tactic(auto)]

ghost use Rattle.host.specs.Answers.{ReadAnswers, CheckAnswers};

#[unsafe(no_mangle)]
pub extern "C" fn sheet_read(sheet: &[u8], out: &mut [u8]) -> u32
    ensures { ReadAnswers sheet.now out.old out.new result }
{
    host::sheet_read(sheet, out)
}

#[unsafe(no_mangle)]
pub extern "C" fn sheet_check(sheet: &[u8], out: &mut [u8]) -> u32
    ensures { CheckAnswers sheet.now out.old out.new result }
{
    host::sheet_check(sheet, out)
}
