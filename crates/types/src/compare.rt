// Runs of entries and of code units compared.
ghost use Rattle.std.specs.Prelude.{◌+◌, ◌≤◌, Decides};
ghost use Rattle.types.specs.Table.{SaysSame};

use crate::entries::TypeEntry;

// Whether the `count` entries from `first` on all stand below the index `end`.
pub fn run_below(first: usize, count: usize, end: usize) -> bool
    ensures { Decides result (first + count ≤ end) }
{
    first <= end && count <= end - first
}

// Whether two runs of entries hold the same code units.
pub fn same_units(types: &[TypeEntry], first: usize, other: usize, count: usize) -> bool
    ensures { SaysSame types.now first other count result }
{
    run_below(first, count, types.len())
        && run_below(other, count, types.len())
        && types[first..first + count]
            .iter()
            .zip(&types[other..other + count])
            .all(|pair| matches!(pair, (TypeEntry::CodeUnit(u), TypeEntry::CodeUnit(v)) if u == v))
}
