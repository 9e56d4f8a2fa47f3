// Reading a file into an empty draft, and its note.
ghost use Rattle.std.specs.Prelude.{◌≡◌, true, false, [], ◌++◌, length, is_ok, if◌then◌else◌};
ghost use Rattle.faults.specs.Causes.{told};
ghost use Rattle.batch.specs.Changes.{capacity_of, filled};
ghost use Rattle.batch.specs.Drafts.{changes, memory_of};
ghost use Rattle.faults.specs.Faults.{read_cause};
ghost use Rattle.weekly.specs.Marks.{marked, merged, TakenAll};
ghost use Rattle.weekly.specs.Read.{read_answer, file_changes, file_note};

use crate::fill::put_all;
use crate::judge::judge;
use crate::reading::Reading;
use batch::lent::Draft;
use faults::draft::DraftFault;
use faults::weekly::ReadFault;

// Puts the changes of both bodies into an empty draft that takes them all.
fn take_in(draft: &mut Draft, added: &[u8], removed: &[u8])
    requires empty { changes draft.old ≡ [] }
    requires fits { TakenAll (marked true added.now ++ marked false removed.now) [] (capacity_of (memory_of draft.old)) }
    ensures changes { changes draft.new ≡ merged added.now removed.now }
    ensures memory { memory_of draft.new ≡ filled (changes draft.new) (memory_of draft.old) }
    ensures same { draft.new.rows.memory.ghost_name ≡ draft.old.rows.memory.ghost_name }
{
    put_all(draft, added, true);
    put_all(draft, removed, false);
}

// Reads a file into a draft, which has to be empty and to have room for the file's changes. A refusal leaves the draft as it was.
#[tactic(auto, using(crate::proofs::Answered::read_not_empty, crate::proofs::Answered::read_faulty))]
pub fn read(file: &[u8], draft: &mut Draft) -> Result<Reading, ReadFault>
    ensures answer { told read_cause result ≡ read_answer file.now (length (changes draft.old)) (capacity_of (memory_of draft.old)) }
    ensures changes { changes draft.new ≡ (if is_ok result then file_changes file.now else changes draft.old) }
    ensures memory { memory_of draft.new ≡ filled (changes draft.new) (memory_of draft.old) }
    ensures same { draft.new.rows.memory.ghost_name ≡ draft.old.rows.memory.ghost_name }
{
    if draft.count() != 0 {
        return Err(ReadFault::NotEmpty);
    }
    let parts = judge(file)?;
    let count = parts.added.len() / 2 + parts.removed.len() / 2;
    let capacity = draft.capacity();
    if capacity < count {
        return Err(ReadFault::Draft(DraftFault::Full { capacity }));
    }
    take_in(draft, parts.added, parts.removed);
    Ok(Reading {
        count,
        place: parts.note_place(),
        length: parts.note.len(),
    })
}

// The note, as a part of the file: empty if the file is faulty or has none.
pub fn note(file: &[u8]) -> &[u8]
    ensures { result.now ≡ file_note file.now }
{
    match judge(file) {
        Ok(parts) => parts.note,
        Err(_) => &file[0..0],
    }
}
