// Open unions.
ghost use Rattle.std.specs.Prelude.{◌≡◌, take};
ghost use Rattle.building.specs.Entries.{Adds, AddsAll, Closes, Place, SameTable, SaysIn, counted, entry_rank};

use crate::equality::same;
use types::entries::{Root, TypeEntry};
use types::kinds::{KINDS, kind_of, rank_of};

// The rank of the kind of a type. What has no kind (`any`, a union; a code unit and an unused entry are no members) stands
// after all kinds.
fn rank_of_entry(e: TypeEntry) -> usize
    ensures { result ≡ entry_rank e }
{
    kind_of(e).map_or(KINDS, rank_of)
}

// Whether the type e is one of the members.
fn has_member(parts: &[TypeEntry], members: &[TypeEntry], e: TypeEntry) -> bool
    ensures { SaysIn parts.now members.now e result }
{
    let used = parts.len();
    let new = Root { entry: e, used };
    members
        .iter()
        .any(|&entry| same(parts, Root { entry, used }, new))
}

// How many members stand before a new one of this rank.
fn place_of(members: &[TypeEntry], rank: usize) -> usize
    ensures { Place members.now rank result }
{
    members
        .iter()
        .position(|member| rank_of_entry(*member) > rank)
        .unwrap_or(members.len())
}

// A union to which types are added, in slots that the type table lends: so its members are the first `count` of them, and no
// `Vec`; their parts stand in `parts`. Of a slice that is lent in a struct a proof knows only what the clauses tell, so each
// method says in `lent` that both are the same ones.
#[derive(Drop)]
pub struct OpenUnion<'p, 's> {
    pub parts: &'p [TypeEntry],
    pub slots: &'s mut [TypeEntry],
    pub count: usize,
}

impl<'p, 's> OpenUnion<'p, 's> {
    // The members. `min` is for the proof alone: the count is never over the length, but to say so would take a `requires` in
    // each method.
    fn members(&self) -> &[TypeEntry]
        ensures { result.now ≡ take self.now.count self.now.slots.now }
    {
        let slots = &*self.slots;
        &slots[..self.count.min(slots.len())]
    }

    // Adds the type e, unless it is one of the members. None where there is no room for it.
    fn add_member(&mut self, e: TypeEntry) -> Option<()>
        ensures lent { SameTable self.old self.new }
        ensures added { Adds self.old.parts.now self.old.slots.now self.new.slots.now self.old.count e (counted result self.new.count) }
    {
        let count = self.count;
        let members = self.members();
        if has_member(self.parts, members, e) {
            return Some(());
        }
        let place = place_of(members, rank_of_entry(e));
        if count >= self.slots.len() {
            return None;
        }
        self.slots.copy_within(place..count, place + 1);
        // By index: of what is written through `get_mut`, a proof would know the length alone.
        self.slots[place] = e;
        self.count = count + 1;
        Some(())
    }

    // Adds the type e, or its members where it is a union. None where there is no room.
    pub fn add(&mut self, e: TypeEntry) -> Option<()>
        ensures lent { SameTable self.old self.new }
        ensures added { AddsAll self.old.parts.now self.old.slots.now self.new.slots.now self.old.count e (counted result self.new.count) }
    {
        let TypeEntry::Union { first, count } = e else {
            return self.add_member(e);
        };
        let end = first.checked_add(count)?;
        let parts = self.parts;
        for member in parts.get(first..end)? {
            self.add_member(*member)?;
        }
        Some(())
    }

    // Closes it: its one member, or a union of several.
    #[tactic(auto, using(crate::proofs::Closed::closes_more))]
    pub fn close(&self) -> Root
        ensures { Closes self.now.parts.now (take self.now.count self.now.slots.now) result }
    {
        let used = self.parts.len();
        match self.members() {
            [member] => Root {
                entry: *member,
                used,
            },
            members => Root {
                entry: TypeEntry::Union {
                    first: used,
                    count: members.len(),
                },
                used: used + members.len(),
            },
        }
    }
}
