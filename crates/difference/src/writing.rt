// The new groups of two plans, written ascending.
ghost use Rattle.std.specs.Prelude.{◌≡◌, ◌/◌, ◌≤◌, length};
ghost use Rattle.groups.specs.Lists.{columns, new_groups_of};
ghost use Rattle.groups.specs.Plans.{New};
ghost use Rattle.search.specs.Plans.{plan_doors, plan_rows};
ghost use Rattle.difference.specs.Changes.{Compared, Marked};
ghost use Rattle.difference.specs.Places.{Listed, Ordered, Written};

use crate::between::Between;
use crate::comparison::{Changed, Comparison};
use crate::rows::Rows;
use groups::group::Group;
use search::tables::Tables;

// The keys and doors that can touch a group.
fn changed(rows: Rows, columns: Rows) -> Changed
    requires { Compared rows.before.now columns.before.now rows.after.now columns.after.now }
    ensures { Marked rows.entry.before.now columns.entry.before.now rows.entry.after.now columns.entry.after.now result.keys result.doors }
{
    let (keys, doors) = (rows.before.len(), columns.before.len());
    let back = rows.exchanged();
    Changed {
        keys: rows.losing(doors) | back.losing(doors),
        doors: columns.losing(keys),
    }
}

// Puts the first `end` places of the table into order.
fn order(table: &mut [Group], end: usize)
    requires { end ≤ length table.old }
    ensures { Ordered table.old table.new 0 end }
{
    table[..end].sort_unstable();
}

impl<'a> Between<'a> {
    // Both plans compared. `turned` is the later plan with keys and doors exchanged.
    fn compare(self, turned: &'a Tables) -> Comparison<'a>
        requires turned_rows { plan_rows turned.now ≡ columns (plan_rows self.after.now) (plan_doors self.after.now) }
        requires turned_doors { plan_doors turned.now ≡ length (plan_rows self.after.now) }
        ensures before { result.rows.before.now ≡ plan_rows self.entry.before.now }
        ensures after { result.rows.after.now ≡ plan_rows self.entry.after.now }
        ensures doors { length result.columns.before.now ≡ plan_doors self.entry.before.now }
    {
        let Between { before, after } = self;
        let rows = Rows {
            before: before.rows(),
            after: after.rows(),
        };
        let columns = Rows {
            before: before.columns(),
            after: after.columns(),
        };
        let changed = changed(rows, columns);
        Comparison {
            rows,
            columns,
            changed,
            later: after,
            turned,
        }
    }

    // Writes the groups that come up to the first places of the table, ascending, and returns where they end; or None where there are more than half
    // of the places.
    fn list_new(self, table: &mut [Group]) -> Option<usize>
        ensures { Listed (New (plan_rows self.entry.before.now) (plan_rows self.entry.after.now) (plan_doors self.entry.before.now)) table.old table.new 0 (length table.old / 2) result }
    {
        let turned = self.after.turned();
        let end = self.compare(&turned).gather(table)?;
        order(table, end);
        Some(end)
    }

    // The same in a table of any length, at any place: see `TwoPlans::new_groups`.
    pub(crate) fn write_new(self, table: &mut [Group], from: usize, limit: usize) -> Option<usize>
        ensures { Written (new_groups_of (plan_rows self.entry.before.now) (plan_rows self.entry.after.now) (plan_doors self.entry.before.now)) table.old table.new from limit result }
    {
        let start = from.min(table.len());
        let limit = limit.min((table.len() - start) / 2);
        let end = self.list_new(&mut table[start..start + 2 * limit])?;
        Some(from + end)
    }
}
