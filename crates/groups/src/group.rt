// A group record is a set of keys and a set of doors, each as a mask. Whether it is a group of some plan is not asked here.
ghost use Rattle.groups.specs.Orders.{group_before};
ghost use Rattle.std.proofs.Common.{rules};

use table::Record;

#[derive(Clone, Copy, PartialEq, Eq, PartialOrd, Ord, Default, Debug)]
#[repr(C)]
pub struct Group {
    pub keys: u64,
    pub doors: u64,
}

// Groups go by their keys, then by their doors, as unsigned numbers.
impl Record for Group {
    ghost before = { group_before };

    ghost order = { record { irreflexive = Prim.search rules; transitive = Prim.search rules; total = Prim.search rules } };

    fn less(&self, other: &Group) -> bool {
        self < other
    }
}
