// Checks the sheets that are named as arguments, `-` for standard input, and prints what is found.
#![tactic(auto)]

mod telling;

use anyhow::bail;
use checker::finding::Finding;
use std::io::Read;
use std::{env, fs};
use tables::{Tables, findings_list};
use telling::Sheet;

fn bytes_of(rt: &HostRuntime, name: &str) -> anyhow::Result<Vec<u8>> {
    if name != "-" {
        return Ok(fs::read(rt, name)?);
    }
    let mut bytes = Vec::new(rt.alloc());
    rt.stdin().read_to_end(&mut bytes)?;
    Ok(bytes)
}

// Checks one sheet, and prints what is found. Of one that cannot be read it says so beside the findings, and answers false.
fn check_one(
    rt: &HostRuntime,
    name: &str,
    tables: &mut Tables,
    findings: &mut [Finding],
) -> anyhow::Result<bool> {
    let bytes = match bytes_of(rt, name) {
        Ok(bytes) => bytes,
        Err(error) => {
            eprintln!(rt; "{name}: {error}")?;
            return Ok(false);
        }
    };
    let sheet = Sheet {
        name,
        bytes: &bytes,
    };
    let outcome = tables.check(sheet.bytes, findings);
    sheet.tell(rt, outcome.answer, findings)?;
    Ok(true)
}

fn main(rt: HostRuntime) -> anyhow::Result<()> {
    let mut tables = Tables::new(rt.alloc())?;
    let mut findings = findings_list(rt.alloc())?;
    let mut all_read = true;
    for argument in env::args(&rt)?.skip(1) {
        let read = check_one(&rt, argument.as_str(), &mut tables, &mut findings)?;
        all_read = all_read && read;
    }
    if !all_read {
        bail!("not every sheet could be read");
    }
    Ok(())
}
