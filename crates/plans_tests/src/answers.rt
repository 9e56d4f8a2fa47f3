use faults::plan::PlanFault;
use numbers::number::{DoorNo, KeyNo, Sizes};
use pairs::pair::Pair;
use plans::makes::{PairPlan, TablePlan};
use plans::plan::{ChangePlan, ReadPlan};
use std::process::Abort;
use std::test::Fail;

// A plan's answer, with a refusal as the number of its cause.
type Answer = Result<(), u8>;

fn told(answer: Result<(), PlanFault>) -> Answer {
    answer.map_err(|fault| fault.cause().number)
}

fn permit<P: ChangePlan>(plan: &mut P, key: u8, door: u8) -> Result<Answer, Fail> {
    Ok(told(plan.permit(KeyNo::try_from(key)?, DoorNo::try_from(door)?)))
}

fn withdraw<P: ChangePlan>(plan: &mut P, key: u8, door: u8) -> Result<Answer, Fail> {
    Ok(told(plan.withdraw(KeyNo::try_from(key)?, DoorNo::try_from(door)?)))
}

// The doors of a key, and the keys of the door of the same number.
fn sides<P: ReadPlan>(plan: &P, value: u8) -> Result<(u64, u64), Fail> {
    Ok((
        plan.doors_of(KeyNo::try_from(value)?),
        plan.keys_of(DoorNo::try_from(value)?),
    ))
}

// What any plan of 3 keys and 2 doors answers that has no pairs yet, and room for 2.
fn refusals<P: ChangePlan>(rt: &impl Abort, plan: &mut P) -> Result<(), Fail> {
    assert_eq!(rt; permit(plan, 3, 0)?, Err(3));
    assert_eq!(rt; permit(plan, 0, 2)?, Err(3));
    assert_eq!(rt; permit(plan, 2, 1)?, Ok(()));
    assert_eq!(rt; permit(plan, 2, 1)?, Err(4));
    assert_eq!(rt; withdraw(plan, 0, 2)?, Err(3));
    assert_eq!(rt; withdraw(plan, 0, 0)?, Err(6));
    Ok(())
}

// Key 2 moves from door 1 to door 0, and then does not open door 1.
fn moves<P: ChangePlan>(rt: &impl Abort, plan: &mut P) -> Result<(), Fail> {
    assert_eq!(rt; sides(plan, 1)?, (0, 4));
    assert_eq!(rt; withdraw(plan, 2, 1)?, Ok(()));
    assert_eq!(rt; permit(plan, 2, 0)?, Ok(()));
    assert_eq!(rt; withdraw(plan, 2, 1)?, Err(6));
    assert_eq!(rt; sides(plan, 0)?, (0, 4));
    assert_eq!(rt; sides(plan, 2)?, (1, 0));
    Ok(())
}

#[test]
fn table_answers(rt: HostRuntime) -> Result<(), Fail> {
    let mut plan = TablePlan::new(Sizes::new(3, 2)?);
    refusals(&rt, &mut plan)?;
    moves(&rt, &mut plan)?;
    assert_eq!(rt; plan.spare(), 5);
    assert_eq!(rt; (plan.keys(), plan.doors()), (3, 2));
    Ok(())
}

#[test]
fn pairs_answer(rt: HostRuntime) -> Result<(), Fail> {
    let mut memory = [Pair { key: 9, door: 9 }; 2];
    let mut plan = PairPlan::new(Sizes::new(3, 2)?, &mut memory);
    refusals(&rt, &mut plan)?;
    moves(&rt, &mut plan)?;
    assert_eq!(rt; plan.spare(), 1);
    assert_eq!(rt; (plan.keys(), plan.doors()), (3, 2));
    Ok(())
}

#[test]
fn places_run_out(rt: HostRuntime) -> Result<(), Fail> {
    let mut memory = [Pair { key: 9, door: 9 }; 1];
    let mut plan = PairPlan::new(Sizes::new(3, 2)?, &mut memory);
    assert_eq!(rt; permit(&mut plan, 1, 1)?, Ok(()));
    assert_eq!(rt; permit(&mut plan, 0, 1)?, Err(5));
    assert_eq!(rt; permit(&mut plan, 1, 1)?, Err(4));
    assert_eq!(rt; permit(&mut plan, 3, 1)?, Err(3));
    assert_eq!(rt; withdraw(&mut plan, 1, 1)?, Ok(()));
    assert_eq!(rt; permit(&mut plan, 0, 1)?, Ok(()));
    Ok(())
}

#[test]
fn capacity_is_at_most_4096(rt: HostRuntime) -> Result<(), Fail> {
    let sizes = Sizes::new(64, 64)?;
    let mut memory = [Pair::default(); 4097];
    assert_eq!(rt; PairPlan::new(sizes, &mut memory).spare(), 4096);
    assert_eq!(rt; TablePlan::new(sizes).spare(), 4096);
    Ok(())
}
