// A register of at most one record, as an example of a make that is added: docs/MAKES.md goes through it.
#![tactic(auto)]

pub mod make;
pub mod one_register;
