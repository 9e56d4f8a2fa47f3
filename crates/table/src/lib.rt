// The ascending table: records of any kind that has a total order, kept ascending in the first rows of a lent slice. It is functions over the
// slice and a count, and no type that holds both: who lends the memory keeps it in a type of his own, with the facts that are his.
#![tactic(auto)]

ghost use Rattle.std.specs.Prelude.{◌≡◌, ℕ, ◌+◌, ◌-◌, ◌<◌, ◌≤◌, Bool, true, false, ◌&&◌, length, take, if◌then◌else◌, Ok, Err, MatchResult, nat_le, nat_lt};
ghost use Rattle.table.specs.Laws.{Sorting, TotalOrder};
ghost use Rattle.table.specs.Rows.{Ascends, FoundAt, with_row, without_row};
ghost use Rattle.table.specs.Sets.{placed, entered, struck};

// A kind of record, with the order that its tables ascend by, which is total. It may be another than the type's own `Ord`, and none is needed.
pub trait Record: Copy {
    // the order as a test
    ghost before: { Self → Self → Bool };

    fn less(&self, other: &Self) -> bool
        ensures { result ≡ before self.now other.now };

    ghost order: { TotalOrder before };
}

// Where `x` stands among the first `count` rows, or where it would go. A count past the memory's end counts as its length.
// Rows that do not ascend leave the answer open, but it lies among them, and what it says it found stands there.
// By hand, since the library's searches halve on to the end where `x` was met at once.
pub fn find<T: Record>(rows: &[T], count: usize, x: &T) -> Result<usize, usize>
    ensures value { Ascends T.before rows.now count → result ≡ placed T.before x.now (take count rows.now) }
    ensures inside { MatchResult result (λ i. FoundAt rows.now count x.now i × (i < length rows.now)) (λ i. (i ≤ count) × (i ≤ length rows.now)) }
{
    let mut low = 0;
    let mut high = count.min(rows.len());
    while low < high {
        let mid = low + (high - low) / 2;
        let row = rows[mid];
        if row.less(x) {
            low = mid + 1;
        } else if x.less(&row) {
            high = mid;
        } else {
            return Ok(mid);
        }
    }
    Err(low)
}

// Writes `x` at `at`, and moves the rows from there up to `count` up by one. False, and nothing done, where `at` is
// past `count` or no row is free: a flag alone, since no value goes with it and the table of causes has no number for it.
pub fn put<T: Record>(rows: &mut [T], count: usize, at: usize, x: T) -> bool
    ensures test { result ≡ (nat_le at count && nat_lt count (length rows.old)) }
    ensures after { rows.new ≡ (if result then with_row rows.old count at x else rows.old) }
    ensures ascends { result ≡ true → Ascends T.before rows.old count → placed T.before x (take count rows.old) ≡ Err at → Ascends T.before rows.new (count + 1) }
    ensures entered { result ≡ true → Ascends T.before rows.old count → placed T.before x (take count rows.old) ≡ Err at → take (count + 1) rows.new ≡ entered T.before x (take count rows.old) }
{
    if count < at || rows.len() <= count {
        return false;
    }
    rows.copy_within(at..count, at + 1);
    rows[at] = x;
    true
}

// Takes the row at `at` away, and moves the rows after it, up to `count`, down by one. False, as in `put`, and nothing done, where
// `at` is not below `count` or `count` is past the memory's end.
pub fn take_out<T: Record>(rows: &mut [T], count: usize, at: usize) -> bool
    ensures test { result ≡ (nat_lt at count && nat_le count (length rows.old)) }
    ensures after { rows.new ≡ (if result then without_row rows.old count at else rows.old) }
    ensures ascends { result ≡ true → Ascends T.before rows.old count → Ascends T.before rows.new (count - 1) }
    ensures struck { (x : T) → result ≡ true → Ascends T.before rows.old count → placed T.before x (take count rows.old) ≡ Ok at → take (count - 1) rows.new ≡ struck T.before x (take count rows.old) }
{
    if count <= at || rows.len() < count {
        return false;
    }
    rows.copy_within(at + 1..count, at);
    true
}

// The theorem that a list has one sorted list, which ascends and has the same records.
pub fn sorting_stands<T: Record>() -> u8
    ensures { Sorting {X = T} T.before }
{
    0
}
