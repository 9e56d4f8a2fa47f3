// The rows of a journal's memory: lines are written in the order of the calls, and the column beside them keeps the records
// held, ascending, beside the first lines. A record is found by halving; to put one in or take one out moves the
// records after it by one. The memory is lent, so they take its rows and a count, as the table's functions do. These are not those
// functions, which move whole rows: here the calls stay where they are.
ghost use Rattle.std.specs.Prelude.{◌≡◌, ℕ, ◌+◌, ◌<◌, ◌≤◌, Bool, length, take, slice_set};
ghost use Rattle.groups.specs.Orders.{group_before};
ghost use Rattle.table.specs.Rows.{Ascends, with_row, without_row};
ghost use Rattle.table.specs.Sets.{placed};
ghost use Rattle.registers.specs.Lines.{calls, column};

use crate::line::{Call, Line};
use groups::group::Group;
use std::mem;
use table::Record;

// Where the record stands beside the first `count` lines, or where it would go. By hand, as in `table::find`.
pub(crate) fn find(rows: &[Line], count: usize, record: Group) -> Result<usize, usize>
    requires within { count ≤ length rows.now }
    requires ascends { Ascends group_before (column rows.now) count }
    ensures { result ≡ placed group_before «record» (take count (column rows.now)) }
{
    let mut low = 0;
    let mut high = count;
    while low < high {
        let mid = low + (high - low) / 2;
        let held = rows[mid].held;
        if held.less(&record) {
            low = mid + 1;
        } else if record.less(&held) {
            high = mid;
        } else {
            return Ok(mid);
        }
    }
    Err(low)
}

// Puts the record beside the line at `at`, and moves what stands from there up to `count` up by one.
pub(crate) fn put(rows: &mut [Line], count: usize, at: usize, record: Group)
    requires { (at ≤ count) × (count < length rows.old) }
    ensures column { column rows.new ≡ with_row (column rows.old) count at «record» }
    ensures calls { calls rows.new ≡ calls rows.old }
{
    let mut carried = record;
    for line in &mut rows[at..=count] {
        mem::swap(&mut line.held, &mut carried);
    }
}

// Takes away what stands beside the line at `at`, and moves what stands after it, up to `count`, down by one: by an index, since the row that
// is written and the one that is read are neighbours in one slice.
pub(crate) fn take_out(rows: &mut [Line], count: usize, at: usize)
    requires { (at < count) × (count ≤ length rows.old) }
    ensures column { column rows.new ≡ without_row (column rows.old) count at }
    ensures calls { calls rows.new ≡ calls rows.old }
{
    for i in at + 1..count {
        rows[i - 1].held = rows[i].held;
    }
}

// Writes the call at `at`, and leaves what stands beside it.
pub(crate) fn write(rows: &mut [Line], at: usize, call: Call)
    requires { at < length rows.old }
    ensures column { column rows.new ≡ column rows.old }
    ensures calls { calls rows.new ≡ slice_set (calls rows.old) at call }
{
    rows[at].call = call;
}
