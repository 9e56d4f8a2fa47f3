// Key and door numbers, and sizes.
#![tactic(auto)]

pub mod door;
pub mod key;
pub mod number;
pub mod sizes;
