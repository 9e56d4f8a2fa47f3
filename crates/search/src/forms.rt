// The rows of a plan in the forms that the search reads: 64 rows, and the plan turned. Numbers of keys and doors are plain numbers with a
// bound in each contract: a type for them would be taken apart at every use.
ghost use Rattle.std.specs.Prelude.{◌≡◌, ◌<◌, ◌≤◌};
ghost use Rattle.search.specs.Nodes.{Cut, Transposed, WithKey};
ghost use Rattle.search.specs.Parts.{padded_rows};

use masks::first;
use masks::members::Members;

// The first 64 rows, and empty ones where there are fewer.
pub(crate) fn padded(rows: &[u64]) -> [u64; 64]
    ensures { result ≡ padded_rows rows.now }
{
    let mut all = [0; 64];
    let n = rows.len().min(64);
    all[..n].copy_from_slice(&rows[..n]);
    all
}

// Puts the key k into the column of each door of `row`.
fn join_key(columns: &mut [u64; 64], row: u64, k: usize)
    requires { k < 64 }
    ensures { WithKey columns.old row k columns.new }
{
    let key = 1 << k;
    for d in Members::of(row) {
        columns[d] |= key;
    }
}

// The columns of the first doors, by the first keys: for each door the keys that open it.
pub(crate) fn transposed(rows: &[u64; 64], keys: usize, doors: usize) -> [u64; 64]
    requires keys { keys ≤ 64 }
    requires doors { doors ≤ 64 }
    ensures { Transposed rows.now result keys doors }
{
    let mut columns = [0; 64];
    let every = first(doors as u8);
    for (k, row) in rows[..keys].iter().enumerate() {
        join_key(&mut columns, *row & every, k);
    }
    columns
}

// The rows with only the first doors.
pub(crate) fn cut(rows: &[u64; 64], doors: usize) -> [u64; 64]
    requires { doors ≤ 64 }
    ensures { Cut rows.now doors result }
{
    let every = first(doors as u8);
    let mut all = *rows;
    for row in &mut all {
        *row &= every;
    }
    all
}
