// Making the tables of a plan, turning them, and reading them.
ghost use Rattle.std.specs.Prelude.{◌≡◌, min, length, take};
ghost use Rattle.groups.specs.Lists.{columns};
ghost use Rattle.search.specs.Plans.{plan_rows, plan_doors};

use crate::forms::{cut, padded, transposed};
use crate::tables::Tables;

impl Tables {
    // The plan of the first 64 rows and the first 64 doors.
    pub fn new(rows: &[u64], doors: usize) -> Tables
        ensures rows { plan_rows result ≡ take 64 rows.now }
        ensures doors { plan_doors result ≡ min doors 64 }
    {
        let keys = rows.len().min(64);
        let doors = doors.min(64);
        let rows = padded(rows);
        let columns = transposed(&rows, keys, doors);
        Tables {
            rows,
            columns,
            keys,
            doors,
        }
    }

    // The plan with keys and doors exchanged.
    pub fn turned(&self) -> Tables
        ensures rows { plan_rows result ≡ columns (plan_rows self.now) (plan_doors self.now) }
        ensures doors { plan_doors result ≡ length (plan_rows self.now) }
    {
        Tables {
            rows: self.columns,
            columns: cut(&self.rows, self.doors),
            keys: self.doors,
            doors: self.keys,
        }
    }

    // For each key the doors that it opens.
    pub fn rows(&self) -> &[u64]
        ensures { result.now ≡ plan_rows self.now }
    {
        &self.rows[0..self.keys]
    }

    // For each door the keys that open it.
    pub fn columns(&self) -> &[u64]
        ensures { result.now ≡ columns (plan_rows self.now) (plan_doors self.now) }
    {
        &self.columns[0..self.doors]
    }
}
