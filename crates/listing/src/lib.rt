// The lines of the listing: what is printed of each weekly file that is booked or refused, byte by byte.
#![tactic(auto)]

mod fields;
pub mod line;
pub mod lines;
pub mod theorems;
