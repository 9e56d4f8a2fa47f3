// An output, written one piece after the other.
ghost use Rattle.std.specs.Prelude.{◌≡◌, ◌+◌, ◌*◌, ◌<◌, ◌≤◌, true, false, ◌++◌, length};
ghost use Rattle.weekly.specs.Places.{places_of};
ghost use Rattle.weekly.specs.Head.{bodies_end};
ghost use Rattle.weekly.specs.Kinds.{letter_of, len_of, start_of};
ghost use Rattle.weekly.specs.Marks.{bytes_of};
ghost use Rattle.weekly.specs.File.{entry_count, added_entry, note_entry, removed_entry, head_of, file_of, plan_of, entry_of, Wrote};

use crate::kind::Kind;
use crate::layout::Layout;
use pairs::change::Change;

// What was written so far ends at `at`. The place stands beside the bytes, since they are the caller's, and there is no heap.
#[derive(Drop)]
pub(crate) struct Output<'a> {
    pub(crate) bytes: &'a mut [u8],
    pub(crate) at: usize,
}

impl<'a> Output<'a> {
    pub(crate) fn put(&mut self, bytes: &[u8])
        requires { self.old.at + length bytes.now ≤ length self.old.bytes.now }
        ensures wrote { Wrote self.old.at bytes.now self.old.bytes.now self.new.bytes.now self.new.at }
        ensures same { self.new.bytes.ghost_name ≡ self.old.bytes.ghost_name }
    {
        let end = self.at + bytes.len();
        self.bytes[self.at..end].copy_from_slice(bytes);
        self.at = end;
    }

    // The entry of a body, if there is one.
    fn put_entry(&mut self, kind: Kind, layout: Layout)
        requires room { self.old.at + length (entry_of (letter_of kind) (start_of (places_of layout) kind) (len_of (places_of layout) kind)) ≤ length self.old.bytes.now }
        ensures wrote { Wrote self.old.at (entry_of (letter_of kind) (start_of (places_of layout) kind) (len_of (places_of layout) kind)) self.old.bytes.now self.new.bytes.now self.new.at }
        ensures same { self.new.bytes.ghost_name ≡ self.old.bytes.ghost_name }
    {
        let len = layout.len(kind);
        if len != 0 {
            let [start_low, start_high] = (layout.start(kind) as u16).to_le_bytes();
            let [len_low, len_high] = (len as u16).to_le_bytes();
            self.put(&[kind.letter(), start_low, start_high, len_low, len_high]);
        }
    }

    // The changes of one mark, a `bool` as in a change.
    fn put_marked(&mut self, rows: &[Change], added: bool)
        requires { self.old.at + length (bytes_of added rows.now) ≤ length self.old.bytes.now }
        ensures wrote { Wrote self.old.at (bytes_of added rows.now) self.old.bytes.now self.new.bytes.now self.new.at }
        ensures same { self.new.bytes.ghost_name ≡ self.old.bytes.ghost_name }
    {
        for row in rows {
            if row.added == added {
                self.put(&[row.key, row.door]);
            }
        }
    }

    // The opening, the number of entries and the entries.
    fn put_head(&mut self, layout: Layout)
        requires room { self.old.at + 5 + length (added_entry (places_of layout)) + length (note_entry (places_of layout)) + length (removed_entry (places_of layout)) ≤ length self.old.bytes.now }
        ensures wrote { Wrote self.old.at (head_of (places_of layout)) self.old.bytes.now self.new.bytes.now self.new.at }
        ensures same { self.new.bytes.ghost_name ≡ self.old.bytes.ghost_name }
    {
        self.put(b"WKL1");
        self.put(&[layout.entries()]);
        self.put_entry(Kind::Added, layout);
        self.put_entry(Kind::Note, layout);
        self.put_entry(Kind::Removed, layout);
    }

    fn put_bodies(&mut self, rows: &[Change], note: &[u8])
        requires { self.old.at + length (bytes_of true rows.now) + length note.now + length (bytes_of false rows.now) ≤ length self.old.bytes.now }
        ensures wrote { Wrote self.old.at (bytes_of true rows.now ++ (note.now ++ bytes_of false rows.now)) self.old.bytes.now self.new.bytes.now self.new.at }
        ensures same { self.new.bytes.ghost_name ≡ self.old.bytes.ghost_name }
    {
        self.put_marked(rows, true);
        self.put(note);
        self.put_marked(rows, false);
    }

    // The whole file.
    pub(crate) fn put_file(&mut self, layout: Layout, rows: &[Change], note: &[u8])
        requires is { places_of layout ≡ plan_of (length (bytes_of true rows.now)) (length note.now) (length (bytes_of false rows.now)) }
        requires room { self.old.at + bodies_end (places_of layout) ≤ length self.old.bytes.now }
        ensures wrote { Wrote self.old.at (file_of rows.now note.now) self.old.bytes.now self.new.bytes.now self.new.at }
        ensures same { self.new.bytes.ghost_name ≡ self.old.bytes.ghost_name }
    {
        self.put_head(layout);
        self.put_bodies(rows, note);
    }
}
