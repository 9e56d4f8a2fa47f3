use crate::group;
use difference::two::TwoPlans;
use groups::group::Group;

// Each key opens all doors but the one of its own number.
fn all_but_own() -> [u64; 64] {
    let mut rows = [0; 64];
    for (k, row) in rows.iter_mut().enumerate() {
        *row = !(1 << k);
    }
    rows
}

#[test]
fn a_pair_joins(rt: HostRuntime) {
    let mut table = [Group::default(); 8];
    assert_eq!(rt;
        TwoPlans::new(&[3, 2, 4], &[3, 3, 4], 3).new_groups(&mut table, 0, 4),
        Some(1)
    );
    assert_eq!(rt; table[0], group(3, 3));
    assert_eq!(rt;
        TwoPlans::new(&[3, 2, 4], &[3, 3, 4], 3).lapsed_groups(&mut table, 1, 3),
        Some(3)
    );
    assert_eq!(rt; table[0], group(3, 3));
    assert_eq!(rt; table[1], group(1, 3));
    assert_eq!(rt; table[2], group(3, 2));
    assert_eq!(rt;
        TwoPlans::new(&[3, 0], &[3, 3], 2).new_groups(&mut table, 0, 4),
        Some(1)
    );
    assert_eq!(rt; table[0], group(3, 3));
    assert_eq!(rt;
        TwoPlans::new(&[3, 0], &[3, 3], 2).lapsed_groups(&mut table, 0, 4),
        Some(1)
    );
    assert_eq!(rt; table[0], group(1, 3));
}

#[test]
fn a_pair_leaves(rt: HostRuntime) {
    let mut table = [Group::default(); 8];
    assert_eq!(rt;
        TwoPlans::new(&[3, 3, 6], &[2, 3, 6], 3).new_groups(&mut table, 0, 4),
        Some(1)
    );
    assert_eq!(rt; table[0], group(2, 3));
    assert_eq!(rt;
        TwoPlans::new(&[3, 3, 6], &[2, 3, 6], 3).lapsed_groups(&mut table, 0, 4),
        Some(1)
    );
    assert_eq!(rt; table[0], group(3, 3));
    assert_eq!(rt;
        TwoPlans::new(&[3, 0], &[2, 2], 2).new_groups(&mut table, 0, 4),
        Some(1)
    );
    assert_eq!(rt; table[0], group(3, 2));
    assert_eq!(rt;
        TwoPlans::new(&[3, 0], &[2, 2], 2).lapsed_groups(&mut table, 0, 4),
        Some(1)
    );
    assert_eq!(rt; table[0], group(1, 3));
}

#[test]
fn room(rt: HostRuntime) {
    let mut table = [Group::default(); 8];
    assert_eq!(rt;
        TwoPlans::new(&[3, 3, 4], &[3, 3, 6], 3).new_groups(&mut table, 4, 2),
        Some(6)
    );
    assert_eq!(rt; table[4], group(4, 6));
    assert_eq!(rt; table[5], group(7, 2));
    assert_eq!(rt;
        TwoPlans::new(&[3, 3, 4], &[3, 3, 6], 3).new_groups(&mut table, 4, 1),
        None
    );
    assert_eq!(rt;
        TwoPlans::new(&[3, 3, 4], &[3, 3, 6], 3).new_groups(&mut table, 5, 2),
        None
    );
    assert_eq!(rt;
        TwoPlans::new(&[3, 3, 4], &[3, 3, 6], 3).new_groups(&mut table, 9, 2),
        None
    );
    assert_eq!(rt;
        TwoPlans::new(&[3, 3, 4], &[3, 3, 4], 3).new_groups(&mut table, 9, 2),
        Some(9)
    );
}

#[test]
fn many(rt: HostRuntime) {
    let mut table = [Group::default(); 64];
    let full = all_but_own();
    let mut fewer = all_but_own();
    fewer[0] = 0xFFFF_FFFF_FFFF_FFFC;
    assert_eq!(rt;
        TwoPlans::new(&full, &fewer, 64).new_groups(&mut table, 0, 32),
        Some(0)
    );
    assert_eq!(rt;
        TwoPlans::new(&full, &fewer, 64).lapsed_groups(&mut table, 0, 32),
        None
    );
    assert_eq!(rt;
        TwoPlans::new(&fewer, &full, 64).new_groups(&mut table, 0, 32),
        None
    );
    let mut more = all_but_own();
    more[0] = u64::MAX;
    assert_eq!(rt;
        TwoPlans::new(&full, &more, 64).new_groups(&mut table, 0, 32),
        None
    );
}

// A group that lies inside a new one but was none before does not lapse: [3,2] lies in [7,2], and stays out.
#[test]
fn only_groups_lapse(rt: HostRuntime) {
    let mut table = [Group::default(); 8];
    assert_eq!(rt;
        TwoPlans::new(&[3, 3, 4], &[3, 3, 6], 3).lapsed_groups(&mut table, 0, 4),
        Some(1)
    );
    assert_eq!(rt; table[0], group(4, 4));
}

#[test]
fn one_key_and_one_door(rt: HostRuntime) {
    let mut table = [Group::default(); 4];
    assert_eq!(rt;
        TwoPlans::new(&[0], &[1], 1).new_groups(&mut table, 0, 2),
        Some(1)
    );
    assert_eq!(rt; table[0], group(1, 1));
    assert_eq!(rt;
        TwoPlans::new(&[0], &[1], 1).lapsed_groups(&mut table, 0, 2),
        Some(0)
    );
    assert_eq!(rt;
        TwoPlans::new(&[1], &[0], 1).lapsed_groups(&mut table, 0, 2),
        Some(1)
    );
    assert_eq!(rt; table[0], group(1, 1));
    assert_eq!(rt;
        TwoPlans::new(&[1], &[0], 1).new_groups(&mut table, 0, 2),
        Some(0)
    );
}
