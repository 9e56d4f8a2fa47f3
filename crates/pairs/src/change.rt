// A change is a pair marked as an addition or a removal. The mark is a `bool`: there are two, and false comes before true as a removal
// before an addition. As two variants of an enum, all removals would come before all additions.
ghost use Rattle.pairs.specs.Orders.{change_before};
ghost use Rattle.pairs.specs.Chains.{change_chain};
ghost use Rattle.std.proofs.Common.{rules};

use table::Record;

#[derive(Clone, Copy, PartialEq, Eq, PartialOrd, Ord, Default, Debug)]
pub struct Change {
    pub key: u8,
    pub door: u8,
    pub added: bool,
}

// Changes go by key, then by door, then a removal before an addition.
impl Record for Change {
    ghost before = { change_before };

    ghost order = { record { irreflexive = Prim.search rules; transitive = change_chain; total = Prim.search rules } };

    fn less(&self, other: &Change) -> bool {
        self < other
    }
}
