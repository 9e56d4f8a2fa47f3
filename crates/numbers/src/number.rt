// Numbers that their types keep in range. Key and door numbers are two types, so that neither is taken for the other. They are two
// structs and not one over a marker type: no derive copies a generic struct with a ghost field.
ghost use Rattle.std.specs.Prelude.{◌<◌, ◌≤◌};

#[derive(Clone, Copy)]
pub struct KeyNo {
    pub(crate) value: u8,
    ghost below: { value < 64 },
}

#[derive(Clone, Copy)]
pub struct DoorNo {
    pub(crate) value: u8,
    ghost below: { value < 64 },
}

// How many keys and how many doors a plan has.
#[derive(Clone, Copy)]
pub struct Sizes {
    pub(crate) keys: u8,
    pub(crate) doors: u8,
    ghost some_key: { 1 ≤ keys },
    ghost few_keys: { keys ≤ 64 },
    ghost some_door: { 1 ≤ doors },
    ghost few_doors: { doors ≤ 64 },
}
