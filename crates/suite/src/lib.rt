// Suites: a plan and a register that are kept in step. Founding, booking, questions, and the law over every list of these calls.
// Plan and register are two parameters and no struct: any plan and any register may be booked on, so no fact binds the two.
#![tactic(auto)]

pub mod ask;
pub mod book;
pub mod calls;
mod checks;
mod compare;
pub mod found;
mod lists;
mod rows;
pub mod run;
mod steps;
