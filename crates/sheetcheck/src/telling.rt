// What is printed of a sheet.
use anyhow::bail;
use checker::calls::Answer;
use checker::finding::{Finding, Kind};
use lexer::positions::position_of;
use lexer::read::Reader;
use lexer::refusal::Refusal;
use std::str::from_utf8;

// A sheet, and the name that it was given by.
#[derive(Clone, Copy)]
pub struct Sheet<'a> {
    pub name: &'a str,
    pub bytes: &'a [u8],
}

impl<'a> Sheet<'a> {
    // The name at a place.
    fn name_at(&self, place: usize) -> &'a str {
        let mut reader = Reader {
            sheet: self.bytes,
            at: place,
        };
        match reader.next() {
            Ok(Some(token)) => from_utf8(token.text).unwrap_or(""),
            _ => "",
        }
    }

    fn tell_place(&self, rt: &HostRuntime, place: usize) -> anyhow::Result<()> {
        print!(rt; "{}:{}: ", self.name, position_of(self.bytes, place))?;
        Ok(())
    }

    fn tell_refusal(&self, rt: &HostRuntime, refusal: Refusal) -> anyhow::Result<()> {
        let Refusal { reason, place } = refusal;
        self.tell_place(rt, place)?;
        println!(rt; "refused ({}): {reason}", reason.number())?;
        Ok(())
    }

    fn tell_finding(&self, rt: &HostRuntime, finding: Finding) -> anyhow::Result<()> {
        self.tell_place(rt, finding.place)?;
        match finding.kind {
            Kind::Blank => println!(rt; "no finding")?,
            Kind::Clash => println!(rt; "clash: no value fits here")?,
            Kind::UnknownName => println!(rt; "unknown name: {}", self.name_at(finding.place))?,
        }
        Ok(())
    }

    fn tell_findings(
        &self,
        rt: &HostRuntime,
        findings: &[Finding],
        count: usize,
    ) -> anyhow::Result<()> {
        for finding in findings.iter().take(count) {
            self.tell_finding(rt, *finding)?;
        }
        println!(rt; "{}: {count} findings", self.name)?;
        Ok(())
    }

    // Prints the answer to a check of the sheet, with the findings that it left.
    pub fn tell(
        &self,
        rt: &HostRuntime,
        answer: Answer,
        findings: &[Finding],
    ) -> anyhow::Result<()> {
        match answer {
            Answer::Blank => bail!("no call was made"),
            Answer::ReadRefused(refusal) | Answer::CheckRefused(refusal) => self.tell_refusal(
                rt, refusal,
            ),
            Answer::Checked { count, .. } => self.tell_findings(rt, findings, count),
        }
    }
}
