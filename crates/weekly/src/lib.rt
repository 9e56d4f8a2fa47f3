// The weekly file: a batch of changes and a note, as bytes.
// `read` puts the changes of a file into an empty draft, or answers the first cause in order, with its place. What it reads is the
// only file for those changes and that note. `note` hands out the note as a part of the file. `write` writes the only file for a
// batch and a note. `receipt` does all of it in one call, and its output is the file's own bytes.
#![tactic(auto)]

mod body;
mod fill;
mod head;
mod judge;
mod kind;
mod laying;
mod layout;
mod output;
mod placed;
pub mod read;
pub mod reading;
pub mod receipt;
pub mod trip;
pub mod write;
