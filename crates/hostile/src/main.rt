// Hands the calls tables that no call left: short ones, and ones that hold anything. Prints what they answer.
#![tactic(auto)]

mod altered;
mod asked;
mod desk;
mod draw;
mod drawn;
mod entries;
mod short;
mod tally;
mod told;

use desk::Desk;
use std::time::Duration;

// How long a call may take, in milliseconds of processor time, over tables that are short, altered without long tokens, or
// drawn.
const LIMIT: u64 = 50;

// Tells on the error output how long the slowest call over some tables took, since that differs from run to run.
fn tell_time(rt: &HostRuntime, tables: &str, longest: Duration) -> anyhow::Result<()> {
    eprintln!(rt;
        "{tables}: the slowest call took {} us",
        longest.as_micros()
    )?;
    Ok(())
}

// Tells whether it kept the limit, too.
fn tell_quick(rt: &HostRuntime, tables: &str, longest: Duration) -> anyhow::Result<()> {
    tell_time(rt, tables, longest)?;
    if longest < Duration::from_millis(LIMIT) {
        println!(rt; "{tables}: each call took under {LIMIT} ms")?;
    } else {
        println!(rt; "{tables}: a call took {LIMIT} ms or more")?;
    }
    Ok(())
}

fn main(rt: HostRuntime) -> anyhow::Result<()> {
    let mut desk = Desk::new(&rt)?;
    let mut other = Desk::new(&rt)?;
    short::tell(&rt, &mut desk)?;
    tell_quick(&rt, "short tables", desk.longest())?;
    altered::tell(&rt, &mut desk)?;
    altered::tell_shared(&rt, &mut desk)?;
    tell_quick(&rt, "altered trees", desk.longest())?;
    altered::tell_long(&rt, &mut desk)?;
    tell_time(&rt, "altered trees over long tokens", desk.longest())?;
    asked::tell(&rt, &mut desk)?;
    tell_time(&rt, "altered types", desk.longest())?;
    drawn::tell(&rt, &mut desk, &mut other)?;
    tell_quick(&rt, "drawn tables", desk.longest().max(other.longest()))?;
    let calls = desk.calls.saturating_add(other.calls);
    println!(rt; "{calls} calls were made")?;
    Ok(())
}
