// Plans of which key opens which door. Two traits say what any plan answers and how it changes. Two makes meet them: a
// table that owns a row for each key and a column for each door, and ascending pairs in lent memory.
#![tactic(auto)]

pub mod makes;
pub mod pair_plan;
mod places;
pub mod plan;
pub mod table_plan;
