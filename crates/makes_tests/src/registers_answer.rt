// What registers answer: every refusal and the order of the tests, the order of the records, capacities.
use faults::register::RegisterFault;
use groups::group::Group;
use one_record::make::OneRecord;
use registers::all::{enter_all, strike_all};
use registers::line::{Call, Line};
use registers::makes::{Journal, SortedRegister};
use registers::register::Register;
use std::process::Abort;

const A: Group = Group { keys: 1, doors: 3 };

const B: Group = Group { keys: 3, doors: 2 };

const C: Group = Group { keys: 3, doors: 4 };

// A row to lend.
fn blank() -> Line {
    Line {
        call: Call::Enter(A),
        held: A,
    }
}

// A refusal as the number of its cause.
fn told(answer: Result<(), RegisterFault>) -> Result<(), u8> {
    answer.map_err(|fault| fault.cause().number)
}

// What any register with no record and a place answers.
fn refusals<R: Register>(rt: &impl Abort, register: &mut R) {
    assert_eq!(rt; told(register.strike(A)), Err(9));
    assert_eq!(rt; told(register.enter(A)), Ok(()));
    assert_eq!(rt; told(register.enter(A)), Err(7));
    assert_eq!(rt; told(register.strike(B)), Err(9));
    assert_eq!(rt; (register.holds(A), register.holds(B)), (true, false));
    assert_eq!(rt; register.count(), 1);
}

// What any register without places answers that has none.
fn empty<R: Register>(rt: &impl Abort, register: &mut R) {
    assert_eq!(rt; (register.count(), register.spare()), (0, 0));
    assert_eq!(rt; told(register.enter(A)), Err(8));
    assert_eq!(rt; told(register.strike(A)), Err(9));
    assert_eq!(rt; register.record_at(0), None);
}

// The records come out ascending, and none past the last.
fn order<R: Register>(rt: &impl Abort, register: &mut R) {
    enter_all(register, &[C, A, B, A]);
    assert_eq!(rt; register.record_at(0), Some(A));
    assert_eq!(rt; register.record_at(1), Some(B));
    assert_eq!(rt; register.record_at(2), Some(C));
    assert_eq!(rt; register.record_at(3), None);
    strike_all(register, &[B, B]);
    assert_eq!(rt; register.record_at(1), Some(C));
    assert_eq!(rt; register.record_at(2), None);
}

#[test]
fn refusals_of_all(rt: HostRuntime) {
    let mut groups = [A; 2];
    let mut lines = [blank(); 2];
    refusals(&rt, &mut SortedRegister::new(&mut groups));
    refusals(&rt, &mut Journal::new(&mut lines));
    refusals(&rt, &mut OneRecord::new());
}

#[test]
fn empty_memory(rt: HostRuntime) {
    let mut groups = [A; 0];
    let mut lines = [blank(); 0];
    empty(&rt, &mut SortedRegister::new(&mut groups));
    empty(&rt, &mut Journal::new(&mut lines));
}

#[test]
fn records_ascend(rt: HostRuntime) {
    let mut groups = [A; 4];
    let mut lines = [blank(); 4];
    let mut sorted = SortedRegister::new(&mut groups);
    order(&rt, &mut sorted);
    assert_eq!(rt;
        (sorted.count(), sorted.spare(), sorted.spends()),
        (2, 2, false)
    );
    let mut journal = Journal::new(&mut lines);
    order(&rt, &mut journal);
    assert_eq!(rt;
        (journal.count(), journal.spare(), journal.spends()),
        (2, 0, true)
    );
}

#[test]
fn full_sorted_register_strikes(rt: HostRuntime) {
    let mut groups = [A; 2];
    let mut register = SortedRegister::new(&mut groups);
    enter_all(&mut register, &[A, B]);
    assert_eq!(rt; told(register.enter(C)), Err(8));
    assert_eq!(rt; told(register.enter(B)), Err(7));
    assert_eq!(rt; told(register.strike(C)), Err(9));
    assert_eq!(rt; told(register.strike(A)), Ok(()));
    assert_eq!(rt; told(register.enter(C)), Ok(()));
    assert_eq!(rt; register.spare(), 0);
}

#[test]
fn full_journal_does_not_strike(rt: HostRuntime) {
    let mut lines = [blank(); 3];
    let mut journal = Journal::new(&mut lines);
    enter_all(&mut journal, &[A, B]);
    assert_eq!(rt; told(journal.strike(A)), Ok(()));
    assert_eq!(rt; told(journal.enter(C)), Err(8));
    assert_eq!(rt; told(journal.enter(B)), Err(7));
    assert_eq!(rt; told(journal.strike(B)), Err(8));
    assert_eq!(rt; told(journal.strike(A)), Err(9));
    assert_eq!(rt; journal.record_at(0), Some(B));
    assert_eq!(rt; journal.count(), 1);
}

#[test]
fn one_record_is_full(rt: HostRuntime) {
    let mut register = OneRecord::new();
    assert_eq!(rt; told(register.enter(A)), Ok(()));
    assert_eq!(rt; told(register.enter(B)), Err(8));
    assert_eq!(rt; told(register.enter(A)), Err(7));
    assert_eq!(rt; register.record_at(0), Some(A));
    assert_eq!(rt; register.record_at(1), None);
    assert_eq!(rt; told(register.strike(A)), Ok(()));
    assert_eq!(rt;
        (register.count(), register.spare(), register.spends()),
        (0, 1, false)
    );
}

#[test]
fn lines_are_in_the_order_of_the_calls(rt: HostRuntime) {
    let mut lines = [blank(); 3];
    let mut journal = Journal::new(&mut lines);
    enter_all(&mut journal, &[C, C, B]);
    assert_eq!(rt; told(journal.strike(C)), Ok(()));
    assert_eq!(rt; lines[0].call, Call::Enter(C));
    assert_eq!(rt; lines[1].call, Call::Enter(B));
    assert_eq!(rt; lines[2].call, Call::Strike(C));
    assert_eq!(rt; lines[0].held, B);
}

#[test]
fn capacity_is_at_most_65536(rt: HostRuntime) {
    let mut groups = [A; 65537];
    let mut lines = [blank(); 65537];
    assert_eq!(rt; SortedRegister::new(&mut groups).spare(), 65536);
    assert_eq!(rt; Journal::new(&mut lines).spare(), 65536);
}

// A journal with as many lines as there can be answers for every record, by one read or by halving.
#[test]
fn longest_journal(rt: HostRuntime) {
    let mut lines = [blank(); 65536];
    let mut journal = Journal::new(&mut lines);
    for keys in 0..65536 {
        assert_eq!(rt; told(journal.enter(Group { keys, doors: 1 })), Ok(()));
    }
    assert_eq!(rt; told(journal.enter(A)), Err(8));
    for index in 0..65536 {
        let group = Group {
            keys: index as u64,
            doors: 1,
        };
        assert!(rt; journal.holds(group));
        assert_eq!(rt; journal.record_at(index), Some(group));
    }
    assert_eq!(rt; journal.record_at(65536), None);
}
