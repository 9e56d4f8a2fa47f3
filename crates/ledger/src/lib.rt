// The ledger of a suite, a definition kept beside the code: what founding, booking and questions answer and leave, and the laws over any list
// of these calls.
#![tactic(auto)]

pub mod laws;
pub mod question;
