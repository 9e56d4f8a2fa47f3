// The opening and the contents.
ghost use Rattle.std.specs.Prelude.{◌≡◌, ◌+◌, ◌*◌, ◌<◌, ◌≤◌, length, IfOk, if◌then◌else◌, None};
ghost use Rattle.std.specs.Iterator.{YieldsFirst, item_count};
ghost use Rattle.faults.specs.Causes.{told_as};
ghost use Rattle.faults.specs.Faults.{file_cause};
ghost use Rattle.weekly.specs.Entries.{entries_of};
ghost use Rattle.weekly.specs.Kinds.{letter_of, last_letter, kind_of};
ghost use Rattle.weekly.specs.Places.{places_of};
ghost use Rattle.weekly.specs.Head.{opened, length_ok, is_entry_ok, entries, bodies_start, layout_of, bodies_end, Short, Sized};

use crate::kind::Kind;
use crate::layout::Layout;
use faults::weekly::FileFault;

// The opening is four fixed bytes, and the number of entries follows it.
fn opens(file: &[u8]) -> bool
    ensures { result ≡ opened file.now }
{
    file.len() >= 5 && file.starts_with(b"WKL1")
}

// An entry of the contents: its letter, and where its body starts and how long it is.
#[derive(Clone, Copy)]
pub(crate) struct Entry {
    pub(crate) letter: u8,
    pub(crate) start: u16,
    pub(crate) len: u16,
}

// The entries of the contents that are left. Not one iterator with the pairs of a body: each takes its bytes apart by a slice
// pattern that names them.
#[derive(Drop)]
pub(crate) struct Entries<'a>(pub(crate) &'a [u8]);

impl<'a> Iterator for Entries<'a> {
    type Item = Entry;

    ghost next_gives = { YieldsFirst (λ s. entries_of s.0.now) };

    ghost remaining = { item_count (λ s. entries_of s.0.now) };

    #[tactic(auto, using(crate::proofs::Heads::read_none, crate::proofs::Heads::read_more))]
    fn next(&mut self) -> Option<Entry> {
        let [letter, start_low, start_high, len_low, len_high, rest @ ..] = self.0 else {
            return None;
        };
        self.0 = rest;
        Some(Entry {
            letter: *letter,
            start: u16::from_le_bytes([*start_low, *start_high]),
            len: u16::from_le_bytes([*len_low, *len_high]),
        })
    }
}

// The length of a body is right: of a note 1 to 200, of additions and of removals even and at least 2, and together at most 128.
fn length_ok(kind: Kind, used: usize, len: usize) -> bool
    requires { (used < 65536) × (len < 65536) }
    ensures { result ≡ length_ok used (letter_of kind) len }
{
    match kind {
        Kind::Note => 1 <= len && len <= 200,
        Kind::Added | Kind::Removed => len % 2 == 0 && 2 <= len && used + len <= 128,
    }
}

// The kind of an entry, if it is right: its letter is above the last one, its body starts where the last one ends, and its
// length is right.
#[tactic(auto, using(crate::proofs::Heads::letter_is))]
fn right_kind(last: Option<Kind>, layout: Layout, entry: Entry) -> Option<Kind>
    ensures { result ≡ (if is_entry_ok (last_letter last) (bodies_end (places_of layout)) layout.added entry.letter entry.start entry.len then kind_of entry.letter else None) }
{
    let kind = Kind::from_letter(entry.letter)?;
    let start = usize::from(entry.start);
    let len = usize::from(entry.len);
    if last < Some(kind) && start == layout.end() && length_ok(kind, layout.added, len) {
        Some(kind)
    } else {
        None
    }
}

// The layout that n entries give: the first wrong one is refused.
fn contents(bytes: &[u8], n: usize) -> Result<Layout, FileFault>
    requires { (n ≤ 3) × (length bytes.now ≡ 5 * n) }
    ensures is { told_as places_of file_cause result ≡ entries n bytes.now 5 0 (bodies_start n) }
    ensures short { IfOk result (λ g. Short (places_of g)) }
{
    let mut layout = Layout::empty(n);
    let mut last = None;
    for (i, entry) in Entries(bytes).enumerate() {
        let Some(kind) = right_kind(last, layout, entry) else {
            return Err(FileFault::Contents { place: 5 + 5 * i });
        };
        layout = layout.with_body(kind, usize::from(entry.len));
        last = Some(kind);
    }
    Ok(layout)
}

// The layout that the opening and the contents give, and that the file's length meets.
#[tactic(auto, using(crate::proofs::Heads::layout_past), unfolding(crate::specs::Head::layout_of, crate::specs::Head::ended))]
pub(crate) fn read_layout(file: &[u8]) -> Result<Layout, FileFault>
    ensures is { told_as places_of file_cause result ≡ layout_of file.now }
    ensures sized { IfOk result (λ g. Sized (length file.now) (places_of g)) }
{
    if !opens(file) {
        return Err(FileFault::Opening);
    }
    let n = usize::from(file[4]);
    if n > 3 {
        return Err(FileFault::Contents { place: 4 });
    }
    let first = 5 + 5 * n;
    if file.len() < first {
        return Err(FileFault::Length { length: file.len() });
    }
    let layout = contents(&file[5..first], n)?;
    if file.len() != layout.end() {
        return Err(FileFault::Length { length: file.len() });
    }
    Ok(layout)
}
