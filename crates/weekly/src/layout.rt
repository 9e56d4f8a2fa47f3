// Where the first body starts, and the length of each body, 0 for one that is not there. The bodies lie one after the other:
// additions, note, removals. They end below 65,536, since an entry says in two bytes where a body starts.
ghost use Rattle.std.specs.Prelude.{◌+◌, ◌<◌};

#[derive(Clone, Copy)]
pub(crate) struct Layout {
    pub(crate) first: usize,
    pub(crate) added: usize,
    pub(crate) note: usize,
    pub(crate) removed: usize,
    ghost short: { first + added + note + removed < 65536 },
}
