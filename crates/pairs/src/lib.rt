// Pairs of a key and a door, and changes to them, as records of the ascending table. Rows in memory hold plain bytes.
#![tactic(auto)]

pub mod change;
pub mod pair;
