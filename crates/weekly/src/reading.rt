// What was read: how many changes, and where the note starts in the file and how long it is, 0 and 0 without one.
// Three numbers and no `Option`, since the format has a read answer three numbers, and its definition says each of them.
#[derive(Clone, Copy, PartialEq, Eq, Debug)]
pub struct Reading {
    pub count: usize,
    pub place: usize,
    pub length: usize,
}
