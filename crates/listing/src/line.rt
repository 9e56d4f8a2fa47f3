// A line of the listing. The longest has 45 bytes, so it stands in the value itself and needs no heap.
ghost use Rattle.std.specs.Prelude.{◌≤◌, length};

use arrayvec::ArrayString;

#[derive(Clone, Copy)]
pub struct Line {
    pub(crate) text: ArrayString<48>,
    ghost within: { length text.bytes ≤ 48 },
}
