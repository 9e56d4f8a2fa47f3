// The two makes of a register, and what always holds of each. Their memory is lent, so how much of it is in use stands beside it.
ghost use Rattle.std.specs.Prelude.{◌≡◌, ℕ, ◌≤◌, true, length, take};
ghost use Rattle.groups.specs.Orders.{group_before};
ghost use Rattle.table.specs.Rows.{Ascends};
ghost use Rattle.registers.specs.Lines.{calls, column, left, proper, same_records};

use crate::line::Line;
use groups::group::Group;

// The first `count` records of the memory. They ascend.
#[derive(Drop)]
pub struct SortedRegister<'a> {
    pub(crate) memory: &'a mut [Group],
    pub(crate) count: usize,
    ghost within: { count ≤ length memory.now },
    ghost few: { count ≤ 65536 },
    ghost ascends: { Ascends group_before memory.now count },
}

// The first `lines` lines of the memory. Beside the first `count` of them stands what the lines leave, ascending.
#[derive(Drop)]
pub struct Journal<'a> {
    pub(crate) memory: &'a mut [Line],
    pub(crate) lines: usize,
    pub(crate) count: usize,
    ghost within: { lines ≤ length memory.now },
    ghost few: { lines ≤ 65536 },
    ghost short: { count ≤ lines },
    ghost agrees: { same_records (take count (column memory.now)) (left (take lines (calls memory.now))) ≡ true },
    ghost sound: { proper (take lines (calls memory.now)) ≡ true },
}
