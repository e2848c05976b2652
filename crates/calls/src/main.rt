// Answers the calls on standard input, one a line.
#![tactic(auto)]

mod answering;
mod line;
mod spelling;

use answering::Desk;
use std::io::Read;

fn main(rt: HostRuntime) -> anyhow::Result<()> {
    let mut input = Vec::new(rt.alloc());
    rt.stdin().read_to_end(&mut input)?;
    let mut desk = Desk::new(rt.alloc())?;
    for (index, line) in input.split_inclusive(|b| *b == b'\n').enumerate() {
        // The last line may lack its line feed.
        let line = line.strip_suffix(b"\n").unwrap_or(line);
        desk.answer(line, index.saturating_add(1))?;
    }
    rt.print(desk.text())?;
    Ok(())
}
