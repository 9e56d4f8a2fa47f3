// A plan as ascending pairs in lent memory.
ghost use Rattle.std.specs.Prelude.{◌≡◌, [], length, replicate};
ghost use Rattle.numbers.specs.Numbers.{sizes_of};
ghost use Rattle.pairs.specs.Orders.{pair_before};
ghost use Rattle.table.specs.Sets.{placed};
ghost use Rattle.plans.specs.Pairs.{capacity};
ghost use Rattle.plans.specs.Lents.{lent_keys, lent_doors, lent_pairs, lent_rows, lent_spare, lent_sound, lent_few};

use crate::makes::PairPlan;
use crate::places::{self, Places};
use crate::plan::{ChangePlan, ReadPlan};
use faults::plan::PlanFault;
use numbers::number::{DoorNo, KeyNo, Sizes};
use pairs::pair::Pair;

impl<'a> PairPlan<'a> {
    // No pairs, at these sizes, in this memory, which keeps what it holds until pairs are put over it.
    pub fn new(sizes: Sizes, memory: &'a mut [Pair]) -> PairPlan<'a>
        ensures sizes { result.sizes ≡ sizes }
        ensures pairs { lent_pairs result ≡ [] }
        ensures rows { lent_rows result ≡ replicate (sizes_of sizes).0 0 }
        ensures spare { lent_spare result ≡ capacity (length memory.old) }
        ensures memory { result.memory.now ≡ memory.old }
        ensures same { result.memory.ghost_name ≡ memory.entry.ghost_name }
    {
        PairPlan {
            memory,
            count: 0,
            sizes,
        }
    }

    // The pairs, ascending.
    fn pairs(&self) -> &[Pair]
        ensures { result.now ≡ lent_pairs self.now }
    {
        &self.memory[..self.count]
    }
}

impl<'a> ReadPlan for PairPlan<'a> {
    ghost keys = { lent_keys };

    ghost doors = { lent_doors };

    ghost rows = { lent_rows };

    ghost sound = { lent_sound };

    fn keys(&self) -> u8 {
        self.sizes.keys()
    }

    fn doors(&self) -> u8 {
        self.sizes.doors()
    }

    fn doors_of(&self, key: KeyNo) -> u64 {
        let key = u8::from(key);
        self.pairs().iter().fold(0, |doors, pair| {
            if pair.key == key {
                doors | 1 << pair.door
            } else {
                doors
            }
        })
    }

    fn keys_of(&self, door: DoorNo) -> u64 {
        let door = u8::from(door);
        self.pairs().iter().fold(0, |keys, pair| {
            if pair.door == door {
                keys | 1 << pair.key
            } else {
                keys
            }
        })
    }
}

impl<'a> Places for PairPlan<'a> {
    type Place = usize;

    ghost place = { λ p pair. placed pair_before pair (lent_pairs p) };

    ghost spare = { lent_spare };

    fn room(&self) -> usize {
        self.memory.len().min(4096) - self.count
    }

    fn find(&self, pair: Pair) -> Result<usize, usize> {
        table::find(self.memory, self.count, &pair)
    }

    fn insert(&mut self, at: usize, pair: Pair) {
        table::put(self.memory, self.count, at, pair);
        self.count += 1;
    }

    fn remove(&mut self, at: usize, _pair: Pair) {
        table::take_out(self.memory, self.count, at);
        self.count -= 1;
    }
}

impl<'a> ChangePlan for PairPlan<'a> {
    ghost spare = { lent_spare };

    ghost few = { lent_few };

    fn spare(&self) -> usize {
        self.room()
    }

    fn permit(&mut self, key: KeyNo, door: DoorNo) -> Result<(), PlanFault> {
        places::permit(self, key, door)
    }

    fn withdraw(&mut self, key: KeyNo, door: DoorNo) -> Result<(), PlanFault> {
        places::withdraw(self, key, door)
    }
}
