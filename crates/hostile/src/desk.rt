// The tables that are lent, and the calls over them.
use checker::asked::type_of;
use checker::check::check;
use checker::finding::{BLANK, Finding};
use checker::stage::Checked;
use lexer::refusal::Refusal;
use parser::read;
use parser::reading::Read;
use parser::tables::{ENTRIES, TYPES, Tables};
use parser::tree::{OperatorEntry, TreeEntry, WalkFrame};
use registers::empty::Empty;
use registers::library::Library;
use std::alloc::AllocError;
use std::time::{CpuClock, Duration};
use types::entries::TypeEntry;

// How many findings are listed.
const FINDINGS: usize = 64;

// How many entries of each table are lent.
#[derive(Clone, Copy)]
pub struct Sizes {
    pub tree: usize,
    pub operators: usize,
    pub frames: usize,
    pub types: usize,
}

pub const FULL: Sizes = Sizes {
    tree: ENTRIES,
    operators: ENTRIES,
    frames: ENTRIES,
    types: TYPES,
};

// Tables of full size, and the calls that were made over them.
#[derive(Drop)]
pub struct Desk<'a> {
    rt: &'a HostRuntime,
    pub tree: Vec<TreeEntry>,
    pub operators: Vec<OperatorEntry>,
    pub frames: Vec<WalkFrame>,
    pub types: Vec<TypeEntry>,
    pub findings: Vec<Finding>,
    pub lent: Sizes,
    // how many calls were made
    pub calls: usize,
    // the processor time of the slowest of them since this was last asked
    longest: Duration,
}

// The first entries of a table, as many as are lent.
fn first_of<T>(table: &mut [T], lent: usize) -> &mut [T] {
    let len = table.len().min(lent);
    &mut table[..len]
}

impl<'a> Desk<'a> {
    pub fn new(rt: &'a HostRuntime) -> Result<Self, AllocError> {
        let heap = rt.alloc();
        Ok(Desk {
            rt,
            tree: vec![in heap; TreeEntry::Blank; ENTRIES]?,
            operators: vec![in heap; OperatorEntry::Blank; ENTRIES]?,
            frames: vec![in heap; WalkFrame::Blank; ENTRIES]?,
            types: vec![in heap; TypeEntry::Unused; TYPES]?,
            findings: vec![in heap; BLANK; FINDINGS]?,
            lent: FULL,
            calls: 0,
            longest: Duration::ZERO,
        })
    }

    // The processor time that was used so far, or none where the clock could not be read.
    fn time(&self) -> Option<Duration> {
        self.rt.thread_cpu_time().ok()
    }

    // Counts a call that began at a time. Where the clock could not be read, it is a slow one.
    fn count(&mut self, start: Option<Duration>) {
        let took = start
            .zip(self.time())
            .map_or(Duration::MAX, |(start, end)| end.saturating_sub(start));
        self.longest = self.longest.max(took);
        self.calls = self.calls.saturating_add(1);
    }

    // The processor time of the slowest call since this was last asked.
    pub fn longest(&mut self) -> Duration {
        let longest = self.longest;
        self.longest = Duration::ZERO;
        longest
    }

    // Makes the tables clean again.
    pub fn clear(&mut self) {
        self.tree.fill(TreeEntry::Blank);
        self.operators.fill(OperatorEntry::Blank);
        self.frames.fill(WalkFrame::Blank);
        self.types.fill(TypeEntry::Unused);
        self.findings.fill(BLANK);
    }

    pub fn read(&mut self, sheet: &[u8]) -> Result<Read, Refusal> {
        let start = self.time();
        let tree = first_of(&mut self.tree, self.lent.tree);
        let mut tables = Tables {
            operators: first_of(&mut self.operators, self.lent.operators),
            frames: first_of(&mut self.frames, self.lent.frames),
            types: first_of(&mut self.types, self.lent.types),
        };
        let answer = read(sheet, tree, &mut tables);
        self.count(start);
        answer
    }

    pub fn check(&mut self, reading: Read, sheet: &[u8]) -> Result<Checked, (Refusal, Read)> {
        let start = self.time();
        let tree = first_of(&mut self.tree, self.lent.tree);
        let mut tables = Tables {
            operators: first_of(&mut self.operators, self.lent.operators),
            frames: first_of(&mut self.frames, self.lent.frames),
            types: first_of(&mut self.types, self.lent.types),
        };
        let answer = check(
            reading,
            sheet,
            tree,
            &Library,
            &Empty,
            &mut tables,
            &mut self.findings,
        );
        self.count(start);
        answer
    }

    pub fn type_of(&mut self, checked: &Checked, number: usize) -> Result<usize, Refusal> {
        let start = self.time();
        let answer = type_of(checked, first_of(&mut self.types, self.lent.types), number);
        self.count(start);
        answer
    }

    // Writes one entry of the tree.
    pub fn set_tree(&mut self, index: usize, entry: TreeEntry) {
        if let Some(slot) = self.tree.get_mut(index) {
            *slot = entry;
        }
    }

    // Writes one entry of the types.
    pub fn set_type(&mut self, index: usize, entry: TypeEntry) {
        if let Some(slot) = self.types.get_mut(index) {
            *slot = entry;
        }
    }
}
