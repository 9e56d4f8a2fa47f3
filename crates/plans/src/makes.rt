// The two makes of a plan, and what always holds of each.
ghost use Rattle.std.specs.Prelude.{◌≡◌, ℕ, ◌*◌, ◌^◌, ◌<◌, ◌≤◌, true, length, take, slice_index};
ghost use Rattle.masks.specs.Masks.{bit};
ghost use Rattle.pairs.specs.Orders.{pair_before};
ghost use Rattle.table.specs.Rows.{Ascends};
ghost use Rattle.plans.specs.Meaning.{pairs_in};
ghost use Rattle.plans.specs.Pairs.{all_inside};

use numbers::number::Sizes;
use pairs::pair::Pair;

// A row of doors for each key and a column of keys for each door. They agree, and lie within the sizes. There are 64
// of each, so that each key and door number is an index. They are not the tables of the search: these are made once, and a plan changes pair by pair.
#[derive(Clone, Copy)]
pub struct TablePlan {
    pub(crate) rows: [u64; 64],
    pub(crate) columns: [u64; 64],
    pub(crate) sizes: Sizes,
    pub(crate) pairs: usize,
    ghost tall: { length rows ≡ 64 },
    ghost wide: { length columns ≡ 64 },
    ghost agree: { (k d : ℕ) → bit (slice_index rows k) d ≡ bit (slice_index columns d) k },
    ghost doors_below: { (k : ℕ) → slice_index rows k < 2 ^ sizes.doors },
    ghost keys_below: { (d : ℕ) → slice_index columns d < 2 ^ sizes.keys },
    ghost counts: { pairs ≡ pairs_in (take sizes.keys rows) },
    ghost fits: { pairs ≤ sizes.keys * sizes.doors },
}

// The first `count` pairs of the memory, which is lent, so that the count stands beside it. They ascend, and lie within the sizes.
#[derive(Drop)]
pub struct PairPlan<'a> {
    pub(crate) memory: &'a mut [Pair],
    pub(crate) count: usize,
    pub(crate) sizes: Sizes,
    ghost within: { count ≤ length memory.now },
    ghost few: { count ≤ 4096 },
    ghost ascends: { Ascends pair_before memory.now count },
    ghost lies: { all_inside sizes.keys sizes.doors (take count memory.now) ≡ true },
}
