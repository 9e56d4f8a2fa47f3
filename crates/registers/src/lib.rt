// Registers of group records. A trait says what any register answers and how it changes. Two makes meet it: ascending
// records in lent memory, and a journal with a line for each change in lent memory.
#![tactic(auto)]

pub mod all;
mod column;
pub mod journal;
pub mod line;
pub mod makes;
mod places;
pub mod register;
pub mod sorted_register;
pub mod theorems;
