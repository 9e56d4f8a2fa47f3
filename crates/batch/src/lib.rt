// Drafts and closed batches. A draft collects the changes of one week; closed, it takes no further change, and only
// then can it be booked or written to a file.
#![tactic(auto)]

pub mod closed;
pub mod draft;
pub mod lent;
pub mod put;
mod rows;
