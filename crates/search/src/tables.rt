// A plan as the search reads it.
ghost use Rattle.std.specs.Prelude.{◌≡◌, ℕ, ◌<◌, ◌≤◌, length, slice_index};
ghost use Rattle.masks.specs.Masks.{bit};
ghost use Rattle.search.specs.Parts.{turned_into};

// A plan of at most 64 keys and 64 doors, by its rows, for each key the doors that it opens, and by its columns, for each door the keys that open it.
// There are 64 of each: those past the plan's are empty. All 64 stand there, so that each
// member of a set is an index, and the counts beside them.
#[derive(Clone, Copy)]
pub struct Tables {
    pub(crate) rows: [u64; 64],
    pub(crate) columns: [u64; 64],
    pub(crate) keys: usize,
    pub(crate) doors: usize,
    ghost few_keys: { keys ≤ 64 },
    ghost few_doors: { doors ≤ 64 },
    ghost tall: { length rows ≡ 64 },
    ghost wide: { length columns ≡ 64 },
    ghost rows_end: { (k : ℕ) → keys ≤ k → slice_index rows k ≡ 0 },
    ghost columns_end: { (d : ℕ) → doors ≤ d → slice_index columns d ≡ 0 },
    ghost agree: { (k d : ℕ) → d < doors → bit (slice_index rows k) d ≡ bit (slice_index columns d) k },
}

// Writes for each door the set of the keys that open it, of the first 64 keys and for the first 64 doors; what `columns` has past these places stays.
pub fn transpose(rows: &[u64], columns: &mut [u64])
    ensures { columns.new ≡ turned_into rows.now columns.old }
{
    let n = columns.len().min(64);
    columns[..n].copy_from_slice(Tables::new(rows, n).columns());
}
