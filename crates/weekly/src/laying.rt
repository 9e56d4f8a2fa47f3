// Making a layout, and what it says of its bodies.
ghost use Rattle.std.specs.Prelude.{◌≡◌, ◌+◌, ◌<◌, ◌≤◌};
ghost use Rattle.weekly.specs.Places.{places_of};
ghost use Rattle.weekly.specs.Head.{bodies_start, bodies_end, with_a_body};
ghost use Rattle.weekly.specs.File.{present, entry_count, plan_of};
ghost use Rattle.weekly.specs.Kinds.{letter_of, len_of, start_of};

use crate::kind::Kind;
use crate::layout::Layout;

// A body that is there has one entry, and an empty one has none.
fn present(len: usize) -> u8
    ensures { result ≡ present len }
{
    u8::from(len != 0)
}

impl Layout {
    // Where bodies of these lengths lie.
    pub(crate) fn plan(added: usize, note: usize, removed: usize) -> Layout
        requires { added + note + removed < 65000 }
        ensures { places_of result ≡ plan_of added note removed }
    {
        let n = present(added) + present(note) + present(removed);
        Layout {
            first: 5 + 5 * usize::from(n),
            added,
            note,
            removed,
        }
    }

    // No body yet, after the opening and n entries.
    pub(crate) fn empty(n: usize) -> Layout
        requires { n ≤ 3 }
        ensures { places_of result ≡ bodies_start n }
    {
        Layout {
            first: 5 + 5 * n,
            added: 0,
            note: 0,
            removed: 0,
        }
    }

    // How many entries the contents have.
    pub(crate) fn entries(self) -> u8
        ensures { result ≡ entry_count self.added self.note self.removed }
    {
        present(self.added) + present(self.note) + present(self.removed)
    }

    // The length of the body of a kind.
    pub(crate) fn len(self, kind: Kind) -> usize
        ensures { result ≡ len_of (places_of self) kind }
    {
        match kind {
            Kind::Added => self.added,
            Kind::Note => self.note,
            Kind::Removed => self.removed,
        }
    }

    // Where the body of a kind starts.
    pub(crate) fn start(self, kind: Kind) -> usize
        ensures { result ≡ start_of (places_of self) kind }
    {
        match kind {
            Kind::Added => self.first,
            Kind::Note => self.first + self.added,
            Kind::Removed => self.first + self.added + self.note,
        }
    }

    // Where the last body ends.
    pub(crate) fn end(self) -> usize
        ensures { result ≡ bodies_end (places_of self) }
    {
        self.first + self.added + self.note + self.removed
    }

    // The layout with the body of one more entry.
    pub(crate) fn with_body(self, kind: Kind, len: usize) -> Layout
        requires { bodies_end (places_of self) + len < 65536 }
        ensures { places_of result ≡ with_a_body (places_of self) (letter_of kind) len }
    {
        let mut layout = self;
        match kind {
            Kind::Added => layout.added += len,
            Kind::Note => layout.note += len,
            Kind::Removed => layout.removed += len,
        }
        layout
    }
}
