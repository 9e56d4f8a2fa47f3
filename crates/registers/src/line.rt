// A row of a journal's memory.
use groups::group::Group;

// What a line says: that the record was entered, or that it was struck.
#[derive(Clone, Copy, PartialEq, Eq, Debug)]
pub enum Call {
    Enter(Group),
    Strike(Group),
}

// `held` has nothing to do with the call: the first rows of the memory, one for each record that the journal holds, keep these
// records there, ascending.
#[derive(Clone, Copy, PartialEq, Eq, Debug)]
pub struct Line {
    pub call: Call,
    pub held: Group,
}
