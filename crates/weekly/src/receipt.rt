// A file read, closed and written back.
ghost use Rattle.std.specs.Prelude.{◌≡◌, length, is_ok, if◌then◌else◌};
ghost use Rattle.faults.specs.Causes.{told};
ghost use Rattle.faults.specs.Faults.{receipt_cause};
ghost use Rattle.weekly.specs.File.{over};
ghost use Rattle.weekly.specs.Receipt.{receipt_answer};

use crate::read::{note, read};
use crate::reading::Reading;
use crate::write::write;
use batch::lent::Draft;
use faults::weekly::ReceiptFault;
use pairs::change::Change;

// Reads a file, closes the draft, and writes the batch and the file's note over the start of the output: what stands there
// then is the file, byte for byte. The draft lies in memory of the call's own, an array with room for every file, so that nothing is allocated.
pub fn receipt(file: &[u8], out: &mut [u8]) -> Result<Reading, ReceiptFault>
    ensures answer { told receipt_cause result ≡ receipt_answer file.now (length out.old) }
    ensures after { out.new ≡ (if is_ok result then over file.now out.old else out.old) }
{
    let mut memory = [Change::default(); 64];
    let mut draft = Draft::new(&mut memory);
    let reading = read(file, &mut draft)?;
    let batch = draft.close();
    write(&batch, note(file), out)?;
    Ok(reading)
}
