// A plan and a register used together, whatever either is made of.
use groups::group::Group;
use numbers::number::{DoorNo, KeyNo, Sizes};
use one_record::make::OneRecord;
use pairs::pair::Pair;
use plans::makes::{PairPlan, TablePlan};
use plans::plan::{ChangePlan, ReadPlan};
use registers::line::{Call, Line};
use registers::makes::{Journal, SortedRegister};
use registers::register::Register;
use std::process::Abort;
use std::test::Fail;

// A row to lend.
fn blank() -> Line {
    Line {
        call: Call::Enter(Group::default()),
        held: Group::default(),
    }
}

// Key 1 comes to open door 0, which makes one group, and then does not open it any more.
fn follow<P: ChangePlan, R: Register>(
    rt: &impl Abort,
    plan: &mut P,
    register: &mut R,
) -> Result<(), Fail> {
    let key = KeyNo::try_from(1)?;
    let door = DoorNo::try_from(0)?;
    assert!(rt; plan.permit(key, door).is_ok());
    let group = Group {
        keys: plan.keys_of(door),
        doors: plan.doors_of(key),
    };
    assert_eq!(rt; group, Group { keys: 2, doors: 1 });
    assert!(rt; register.enter(group).is_ok());
    assert!(rt; register.holds(group));
    assert_eq!(rt; register.record_at(0), Some(group));
    assert!(rt; plan.withdraw(key, door).is_ok());
    assert!(rt; register.strike(group).is_ok());
    assert_eq!(rt; register.count(), 0);
    Ok(())
}

#[test]
fn table_plan_and_sorted_register(rt: HostRuntime) -> Result<(), Fail> {
    let mut plan = TablePlan::new(Sizes::new(2, 1)?);
    let mut memory = [Group::default(); 1];
    follow(&rt, &mut plan, &mut SortedRegister::new(&mut memory))
}

#[test]
fn table_plan_and_journal(rt: HostRuntime) -> Result<(), Fail> {
    let mut plan = TablePlan::new(Sizes::new(2, 1)?);
    let mut memory = [blank(); 2];
    follow(&rt, &mut plan, &mut Journal::new(&mut memory))
}

#[test]
fn pair_plan_and_sorted_register(rt: HostRuntime) -> Result<(), Fail> {
    let mut pairs = [Pair::default(); 1];
    let mut plan = PairPlan::new(Sizes::new(2, 1)?, &mut pairs);
    let mut memory = [Group::default(); 1];
    follow(&rt, &mut plan, &mut SortedRegister::new(&mut memory))
}

#[test]
fn pair_plan_and_journal(rt: HostRuntime) -> Result<(), Fail> {
    let mut pairs = [Pair::default(); 1];
    let mut plan = PairPlan::new(Sizes::new(2, 1)?, &mut pairs);
    let mut memory = [blank(); 2];
    follow(&rt, &mut plan, &mut Journal::new(&mut memory))
}

#[test]
fn any_plan_and_one_record(rt: HostRuntime) -> Result<(), Fail> {
    let mut pairs = [Pair::default(); 1];
    let sizes = Sizes::new(2, 1)?;
    let mut plan = PairPlan::new(sizes, &mut pairs);
    let mut register = OneRecord::new();
    follow(&rt, &mut plan, &mut register)?;
    follow(&rt, &mut TablePlan::new(sizes), &mut register)
}
