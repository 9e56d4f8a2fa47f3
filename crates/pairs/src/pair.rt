// A pair says that the key opens the door.
ghost use Rattle.pairs.specs.Orders.{pair_before};
ghost use Rattle.pairs.specs.Chains.{pair_chain};
ghost use Rattle.std.proofs.Common.{rules};

use table::Record;

#[derive(Clone, Copy, PartialEq, Eq, PartialOrd, Ord, Default, Debug)]
pub struct Pair {
    pub key: u8,
    pub door: u8,
}

// Pairs go by key, then by door.
impl Record for Pair {
    ghost before = { pair_before };

    ghost order = { record { irreflexive = Prim.search rules; transitive = pair_chain; total = Prim.search rules } };

    fn less(&self, other: &Pair) -> bool {
        self < other
    }
}
