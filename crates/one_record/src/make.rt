// The make alone, so that the definitions that say what it means can name it.
use groups::group::Group;

// The record, where one is held.
#[derive(Clone, Copy)]
pub struct OneRecord {
    pub(crate) held: Option<Group>,
}
