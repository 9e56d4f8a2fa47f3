// A call to a suite with what it is given, and its answer once it was made. It owns its lists, of any length. It is an enum and not a
// closure, since the law speaks of every list of calls.
use faults::number::NumberFault;
use faults::suite::BookingFault;
use groups::group::Group;
use ledger::question::{Answer, Question};
use pairs::change::Change;

#[derive(Drop)]
pub enum Call {
    // The changes, in any order, are put into a draft, which is closed and booked.
    Book {
        changes: Vec<Change>,
        new: Vec<Group>,
        lapsed: Vec<Group>,
        answer: Option<Result<(usize, usize), BookingFault>>,
    },
    Ask {
        question: Question,
        answer: Option<Result<Answer, NumberFault>>,
    },
}
