// Writing a closed batch and a note.
ghost use Rattle.std.specs.Prelude.{◌≡◌, ◌*◌, ◌≤◌, length, is_ok, if◌then◌else◌};
ghost use Rattle.batch.specs.Drafts.{closed_changes};
ghost use Rattle.faults.specs.Causes.{told};
ghost use Rattle.faults.specs.Faults.{write_cause};
ghost use Rattle.weekly.specs.Marks.{bytes_of};
ghost use Rattle.weekly.specs.File.{file_of, write_answer, over};

use crate::body::bad_byte;
use crate::layout::Layout;
use crate::output::Output;
use batch::lent::Closed;
use faults::weekly::WriteFault;
use pairs::change::Change;

// How many bytes the changes of one mark, a `bool` as in a change, take.
#[tactic(auto, using(crate::proofs::Marked::bytes_length))]
fn size(rows: &[Change], added: bool) -> usize
    requires { length rows.now ≤ 64 }
    ensures is { result ≡ length (bytes_of added rows.now) }
    ensures few { result ≤ 2 * length rows.now }
{
    2 * rows.iter().filter(|row| row.added == added).count()
}

// Writes the file of the batch and the note over the start of the output, and answers its length. A note has at most 200 bytes.
// A refusal leaves the output as it was.
#[tactic(auto, using(crate::proofs::Written::write_long, crate::proofs::Written::write_bad, crate::proofs::Written::write_short, crate::proofs::Written::write_done, crate::proofs::Written::file_end))]
pub fn write(batch: &Closed, note: &[u8], out: &mut [u8]) -> Result<usize, WriteFault>
    ensures answer { told write_cause result ≡ write_answer (closed_changes batch.now) note.now (length out.old) }
    ensures after { out.new ≡ (if is_ok result then over (file_of (closed_changes batch.now) note.now) out.old else out.old) }
{
    if note.len() > 200 {
        return Err(WriteFault::Note { place: 200 });
    }
    if let Some(place) = bad_byte(note) {
        return Err(WriteFault::Note { place });
    }
    let rows = batch.changes();
    let layout = Layout::plan(size(rows, true), note.len(), size(rows, false));
    let length = layout.end();
    if out.len() < length {
        return Err(WriteFault::Short);
    }
    Output { bytes: out, at: 0 }.put_file(layout, rows, note);
    Ok(length)
}
