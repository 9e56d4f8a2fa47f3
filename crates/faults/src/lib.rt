// Every refusal of the book: the faults of each layer, each of which holds the fault of the layer below whole, and the
// number and value that the table of causes gives it. Each `From` is written out, since a derived one does not promise which case it makes.
// `cause` is a method and no `From`: a fault is not made into its cause, it has one.
#![tactic(auto)]

pub mod cause;
pub mod draft;
pub mod intake;
pub mod number;
pub mod plan;
pub mod register;
pub mod suite;
pub mod weekly;
