// What can be asked of a suite, and how it is answered. A question may name any number.
use groups::group::Group;

#[derive(Clone, Copy, PartialEq)]
pub enum Question {
    Sizes,
    DoorsOf { key: u8 },
    KeysOf { door: u8 },
    PlanSpare,
    RegisterSpare,
    Count,
    Holds { record: Group },
    RecordAt { index: usize },
}

#[derive(Clone, Copy, PartialEq)]
pub enum Answer {
    Sizes { keys: u8, doors: u8 },
    Doors(u64),
    Keys(u64),
    Number(usize),
    Truth(bool),
    Record(Option<Group>),
}
