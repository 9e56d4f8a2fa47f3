use crate::group;
use difference::two::TwoPlans;
use groups::group::Group;

#[test]
fn both_lists_of_two_plans(rt: HostRuntime) {
    let mut table = [Group::default(); 8];
    assert_eq!(rt;
        TwoPlans::new(&[3, 2, 4], &[3, 3, 4], 3).new_groups(&mut table, 0, 4),
        Some(1)
    );
    assert_eq!(rt; table[0], group(3, 3));
    assert_eq!(rt;
        TwoPlans::new(&[3, 2, 4], &[3, 3, 4], 3).lapsed_groups(&mut table, 1, 3),
        Some(3)
    );
    assert_eq!(rt; table[0], group(3, 3));
    assert_eq!(rt; table[1], group(1, 3));
    assert_eq!(rt; table[2], group(3, 2));
    assert_eq!(rt;
        TwoPlans::new(&[3, 0], &[3, 3], 2).new_groups(&mut table, 0, 4),
        Some(1)
    );
    assert_eq!(rt; table[0], group(3, 3));
    assert_eq!(rt;
        TwoPlans::new(&[3, 0], &[3, 3], 2).lapsed_groups(&mut table, 0, 4),
        Some(1)
    );
    assert_eq!(rt; table[0], group(1, 3));
}

// Rows that one plan has alone, and doors past the number of doors, do not count.
#[test]
fn what_both_have(rt: HostRuntime) {
    let mut table = [Group::default(); 4];
    let plans = TwoPlans::new(&[3, 1, 3], &[3, 3], 1);
    assert_eq!(rt; plans.new_groups(&mut table, 0, 2), Some(0));
    assert_eq!(rt; plans.lapsed_groups(&mut table, 0, 2), Some(0));
    let plans = TwoPlans::new(&[3, 1, 3], &[3, 3], 2);
    assert_eq!(rt; plans.new_groups(&mut table, 0, 2), Some(1));
    assert_eq!(rt; table[0], group(3, 3));
    assert_eq!(rt; plans.lapsed_groups(&mut table, 0, 2), Some(2));
    assert_eq!(rt; table[0], group(1, 3));
    assert_eq!(rt; table[1], group(3, 1));
}
