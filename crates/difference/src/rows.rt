// The rows of two plans side by side.
ghost use Rattle.std.specs.Prelude.{◌≡◌, ◌≤◌, length};

// The rows of two plans of the same keys, before a change and after it: for each key the doors that it opens. Of the turned plans, for each door
// the keys that open it.
#[derive(Clone, Copy)]
pub(crate) struct Rows<'a> {
    pub(crate) before: &'a [u64],
    pub(crate) after: &'a [u64],
    ghost few: { length before.now ≤ 64 },
    ghost same: { length after.now ≡ length before.now },
}
