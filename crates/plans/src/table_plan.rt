// A plan as a table of rows and columns.
ghost use Rattle.std.specs.Prelude.{◌≡◌, ◌*◌, cond, replicate, Ok, Err};
ghost use Rattle.numbers.specs.Numbers.{sizes_of};
ghost use Rattle.plans.specs.Meaning.{stands};
ghost use Rattle.plans.specs.Tables.{table_keys, table_doors, table_rows, table_spare, table_sound, table_few};

use crate::makes::TablePlan;
use crate::places::{self, Places};
use crate::plan::{ChangePlan, ReadPlan};
use faults::plan::PlanFault;
use numbers::number::{DoorNo, KeyNo, Sizes};
use pairs::pair::Pair;

impl TablePlan {
    // No pairs, at these sizes.
    pub fn new(sizes: Sizes) -> TablePlan
        ensures sizes { result.sizes ≡ sizes }
        ensures rows { table_rows result ≡ replicate (sizes_of sizes).0 0 }
        ensures spare { table_spare result ≡ (sizes_of sizes).0 * (sizes_of sizes).1 }
    {
        TablePlan {
            rows: [0; 64],
            columns: [0; 64],
            sizes,
            pairs: 0,
        }
    }
}

impl ReadPlan for TablePlan {
    ghost keys = { table_keys };

    ghost doors = { table_doors };

    ghost rows = { table_rows };

    ghost sound = { table_sound };

    fn keys(&self) -> u8 {
        self.sizes.keys()
    }

    fn doors(&self) -> u8 {
        self.sizes.doors()
    }

    fn doors_of(&self, key: KeyNo) -> u64 {
        self.rows[u8::from(key) as usize]
    }

    fn keys_of(&self, door: DoorNo) -> u64 {
        self.columns[u8::from(door) as usize]
    }
}

// A pair is a bit in its row and a bit in its column, so it has one place only.
impl Places for TablePlan {
    type Place = ();

    ghost place = { λ p pair. cond (stands (table_rows p) pair.key pair.door) (Ok tt) (Err tt) };

    ghost spare = { table_spare };

    fn room(&self) -> usize {
        self.sizes.keys() as usize * self.sizes.doors() as usize - self.pairs
    }

    fn find(&self, pair: Pair) -> Result<(), ()> {
        if masks::has(self.rows[pair.key as usize], pair.door) {
            Ok(())
        } else {
            Err(())
        }
    }

    fn insert(&mut self, _at: (), pair: Pair) {
        self.rows[pair.key as usize] |= 1 << pair.door;
        self.columns[pair.door as usize] |= 1 << pair.key;
        self.pairs += 1;
    }

    fn remove(&mut self, _at: (), pair: Pair) {
        let row = &mut self.rows[pair.key as usize];
        *row = masks::without(*row, pair.door);
        let column = &mut self.columns[pair.door as usize];
        *column = masks::without(*column, pair.key);
        self.pairs -= 1;
    }
}

impl ChangePlan for TablePlan {
    ghost spare = { table_spare };

    ghost few = { table_few };

    fn spare(&self) -> usize {
        self.room()
    }

    fn permit(&mut self, key: KeyNo, door: DoorNo) -> Result<(), PlanFault> {
        places::permit(self, key, door)
    }

    fn withdraw(&mut self, key: KeyNo, door: DoorNo) -> Result<(), PlanFault> {
        places::withdraw(self, key, door)
    }
}
