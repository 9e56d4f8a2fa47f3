// The groups that come up and that lapse from one plan to the next of the same keys and doors, found at a cost that follows the change.
// A group of the later plan is new exactly where some key or some door touches it (`touched_groups_are_new`). The groups that one key touches
// are those that have it and for whose keys the rows share a door among those that it gained or lost; one search finds them. Those that a door
// touches are found in the same way on the turned plan.
#![tactic(auto)]

ghost use Rattle.std.specs.Prelude.{◌≡◌, min, take};
ghost use Rattle.groups.specs.Lists.{new_groups_of, lapsed_groups_of};
ghost use Rattle.difference.specs.Both.{after_rows, before_rows, two_doors};
ghost use Rattle.difference.specs.Changes.{TouchedAreNew, shared_count};
ghost use Rattle.difference.specs.Places.{Written};

use between::Between;
use groups::group::Group;
use search::tables::Tables;
use two::TwoPlans;

mod between;
mod comparison;
mod gathering;
mod rows;
mod touches;
pub mod two;
mod writing;

// A group is new exactly where some key or some door touches it, as a theorem.
pub fn touched_groups_are_new() -> u8
    ensures { TouchedAreNew }
{
    0
}

impl TwoPlans {
    // Both plans at the keys that both have, at most 64, and at the first 64 doors.
    pub fn new(before: &[u64], after: &[u64], doors: usize) -> TwoPlans
        ensures before { before_rows result ≡ take (shared_count before.now after.now) before.now }
        ensures after { after_rows result ≡ take (shared_count before.now after.now) after.now }
        ensures doors { two_doors result ≡ min doors 64 }
    {
        let keys = before.len().min(after.len()).min(64);
        TwoPlans {
            before: Tables::new(&before[0..keys], doors),
            after: Tables::new(&after[0..keys], doors),
        }
    }

    // Writes the groups of the later plan that are no groups of the earlier to the table from `from` on, ascending, and returns where they end;
    // or None where there are more than `limit`, or more than half of the places there are. The places before `from` are kept.
    // The places behind the list, and with None all from `from` on, are work space and may have changed.
    pub fn new_groups(&self, table: &mut [Group], from: usize, limit: usize) -> Option<usize>
        ensures { Written (new_groups_of (before_rows self.now) (after_rows self.now) (two_doors self.now)) table.old table.new from limit result }
    {
        Between {
            before: &self.before,
            after: &self.after,
        }
        .write_new(table, from, limit)
    }

    // Writes the groups of the earlier plan that are no groups of the later, in the same way.
    pub fn lapsed_groups(&self, table: &mut [Group], from: usize, limit: usize) -> Option<usize>
        ensures { Written (lapsed_groups_of (before_rows self.now) (after_rows self.now) (two_doors self.now)) table.old table.new from limit result }
    {
        Between {
            before: &self.after,
            after: &self.before,
        }
        .write_new(table, from, limit)
    }
}
