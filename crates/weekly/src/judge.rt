// The whole judgement of a file, and its bodies as parts of it.
ghost use Rattle.std.specs.Prelude.{◌≡◌, ◌+◌, ◌≤◌, length, IfOk};
ghost use Rattle.faults.specs.Causes.{told_as};
ghost use Rattle.faults.specs.Faults.{file_cause};
ghost use Rattle.weekly.specs.Places.{places_of};
ghost use Rattle.weekly.specs.Head.{Sized};
ghost use Rattle.weekly.specs.Parts.{laid_out, PartsOf};
ghost use Rattle.weekly.specs.Read.{judged, place_of_note};

use crate::body::bodies;
use crate::head::read_layout;
use crate::layout::Layout;
use faults::weekly::FileFault;

// The bodies as parts of a file, one after the other, the first of them at `first`.
#[derive(Clone, Copy)]
pub(crate) struct Parts<'a> {
    pub(crate) first: usize,
    pub(crate) added: &'a [u8],
    pub(crate) note: &'a [u8],
    pub(crate) removed: &'a [u8],
}

impl<'a> Parts<'a> {
    // The parts of a file that ends with the layout's last body.
    fn of(file: &'a [u8], layout: Layout) -> Parts<'a>
        requires { Sized (length file.now) (places_of layout) }
        ensures layout { laid_out result ≡ places_of layout }
        ensures parts { PartsOf file.now result }
    {
        let (added, rest) = file[layout.first..].split_at(layout.added);
        let (note, removed) = rest.split_at(layout.note);
        Parts {
            first: layout.first,
            added,
            note,
            removed,
        }
    }

    // Where the note starts, 0 without one.
    pub(crate) fn note_place(self) -> usize
        requires { self.first + length self.added.now ≤ 1000 }
        ensures { result ≡ place_of_note (laid_out self.entry) }
    {
        if self.note.is_empty() {
            0
        } else {
            self.first + self.added.len()
        }
    }
}

// The opening, the contents and the length come first, then the bodies: the first cause in this order is the answer.
#[tactic(auto, using(crate::proofs::Goods::judged_head))]
pub(crate) fn judge(file: &[u8]) -> Result<Parts<'_>, FileFault>
    ensures is { told_as laid_out file_cause result ≡ judged file.now }
    ensures parts { IfOk result (PartsOf file.now) }
{
    let parts = Parts::of(file, read_layout(file)?);
    bodies(&parts)?;
    Ok(parts)
}
