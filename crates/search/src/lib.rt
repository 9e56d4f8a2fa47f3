// Lists the groups of a plan, all of them or those with some property of their keys, straight into a table, ascending.
// A plan has a row for each key, the set of the doors that the key opens. Only the first 64 rows and the first 64 doors count.
// The table and the count from which on it is filled are two parameters: the caller's table is a plain slice, and goes on being his.
#![tactic(auto)]

ghost use Rattle.std.specs.Prelude.{◌≡◌};
ghost use Rattle.groups.specs.Lists.{groups_of};
ghost use Rattle.search.specs.Fills.{fill_answer, filled_from};
ghost use Rattle.search.specs.Parts.{groups_between_of, groups_watched_of, scope_list};
ghost use Rattle.search.specs.Plans.{plan_doors, plan_rows};

use forms::padded;
use groups::group::Group;
use states::Plan;
use tables::Tables;

mod forms;
mod making;
mod nodes;
mod states;
pub mod tables;

impl Tables {
    // Writes all groups of the plan into the table from `count` on, ascending, and returns where they end; or None where they do not all fit,
    // and then the table has as many of the first as fit.
    pub fn groups(&self, table: &mut [Group], count: usize) -> Option<usize>
        ensures answer { result ≡ fill_answer (groups_of (plan_rows self.now) (plan_doors self.now)) table.old count }
        ensures table { table.new ≡ filled_from (groups_of (plan_rows self.now) (plan_doors self.now)) table.old count }
    {
        self.list(0, 0, &[u64::MAX; 64], table, count)
    }

    // The same for the groups that have all keys of `base`, and only keys of `within`.
    pub fn groups_between(
        &self,
        base: u64,
        within: u64,
        table: &mut [Group],
        count: usize,
    ) -> Option<usize>
        ensures answer { result ≡ fill_answer (groups_between_of (plan_rows self.now) (plan_doors self.now) base within) table.old count }
        ensures table { table.new ≡ filled_from (groups_between_of (plan_rows self.now) (plan_doors self.now) base within) table.old count }
    {
        self.list(base, !within, &[u64::MAX; 64], table, count)
    }

    // The same for the groups that have all keys of `base`, and for whose keys the rows of `watch` share a bit. A key with no row in `watch` is in none of these.
    pub fn groups_watched(
        &self,
        base: u64,
        watch: &[u64],
        table: &mut [Group],
        count: usize,
    ) -> Option<usize>
        ensures answer { result ≡ fill_answer (groups_watched_of (plan_rows self.now) (plan_doors self.now) base watch.now) table.old count }
        ensures table { table.new ≡ filled_from (groups_watched_of (plan_rows self.now) (plan_doors self.now) base watch.now) table.old count }
    {
        self.list(base, 0, &padded(watch), table, count)
    }

    // The same for the groups that have all keys of `base` and none of `out`, and for whose keys the rows of `watch` share a bit.
    fn list(
        &self,
        base: u64,
        out: u64,
        watch: &[u64; 64],
        table: &mut [Group],
        count: usize,
    ) -> Option<usize>
        ensures answer { result ≡ fill_answer (scope_list self.now.rows self.now.doors watch.now base out) table.old count }
        ensures table { table.new ≡ filled_from (scope_list self.now.rows self.now.doors watch.now base out) table.old count }
    {
        if count > table.len() {
            return None;
        }
        let plan = Plan {
            rows: &self.rows,
            columns: &self.columns,
            watch,
            doors: self.doors as u8,
        };
        match plan.root(base, out) {
            Some(node) => plan.visit(node, table, count),
            None => Some(count),
        }
    }
}
