// How an answer is written into bytes: each number in four bytes, the lowest first.
ghost use Rattle.std.specs.Prelude.{◌≡◌, ◌+◌, ◌-◌, ◌*◌, ◌/◌, ◌≤◌, min, length, take};
ghost use Rattle.host.specs.Layout.{word, row, rows, replaced};

use checker::finding::Finding;

// How many bytes a number takes.
pub const WORD: usize = 4;

// How many bytes stand before the findings: two counts.
pub const HEAD: usize = 2 * WORD;

// How many bytes a finding takes: its kind, and its place.
const ROW: usize = 2 * WORD;

// Writes the four lowest bytes of a number.
pub(crate) fn put(out: &mut [u8], at: usize, value: usize)
    requires { at + 4 ≤ length out.old }
    ensures { out.new ≡ replaced out.old at (word value) }
{
    let bytes = value.to_le_bytes();
    out[at..at + WORD].copy_from_slice(&bytes[..WORD]);
}

// Writes a finding: its kind, and its place.
fn put_finding(out: &mut [u8], at: usize, f: Finding)
    requires { at + 8 ≤ length out.old }
    ensures { out.new ≡ replaced out.old at (row f) }
{
    put(out, at, usize::from(f.kind.number()));
    put(out, at + WORD, f.place);
}

// Writes the first of `count` findings after the head, as many as are listed and have room.
pub(crate) fn put_findings(out: &mut [u8], findings: &[Finding], count: usize)
    requires { 8 ≤ length out.old }
    ensures { out.new ≡ replaced out.old 8 (rows (take (min (min count (length findings.now)) ((length out.old - 8) / 8)) findings.now)) }
{
    let n = count.min(findings.len()).min((out.len() - HEAD) / ROW);
    // By index: of what is written through the chunks of `out`, a proof would know the length alone.
    for (i, finding) in findings[..n].iter().enumerate() {
        put_finding(out, HEAD + ROW * i, *finding);
    }
}
