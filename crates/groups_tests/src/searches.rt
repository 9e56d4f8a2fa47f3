use groups::group::Group;
use search::tables::{Tables, transpose};

#[test]
fn lists_all(rt: HostRuntime) {
    let mut table = [Group::default(); 4];
    assert_eq!(rt; Tables::new(&[3, 2, 4], 3).groups(&mut table, 1), Some(4));
    assert_eq!(rt; table[0], Group::default());
    assert_eq!(rt; table[1], Group { keys: 1, doors: 3 });
    assert_eq!(rt; table[2], Group { keys: 3, doors: 2 });
    assert_eq!(rt; table[3], Group { keys: 4, doors: 4 });
    let mut many = [Group::default(); 20];
    assert_eq!(rt;
        Tables::new(&[14, 13, 11, 7], 4).groups(&mut many, 0),
        Some(14)
    );
}

#[test]
fn full(rt: HostRuntime) {
    let mut table = [Group::default(); 2];
    assert_eq!(rt; Tables::new(&[3, 2, 4], 3).groups(&mut table, 0), None);
    assert_eq!(rt; table[0], Group { keys: 1, doors: 3 });
    assert_eq!(rt; table[1], Group { keys: 3, doors: 2 });
    assert_eq!(rt; Tables::new(&[3, 2, 4], 3).groups(&mut table, 3), None);
    assert_eq!(rt; Tables::new(&[], 64).groups(&mut table, 2), Some(2));
    assert_eq!(rt; Tables::new(&[1], 0).groups(&mut table, 3), None);
}

#[test]
fn some(rt: HostRuntime) {
    let mut table = [Group::default(); 4];
    assert_eq!(rt;
        Tables::new(&[3, 2, 4], 3).groups_between(2, 3, &mut table, 0),
        Some(1)
    );
    assert_eq!(rt; table[0], Group { keys: 3, doors: 2 });
    assert_eq!(rt;
        Tables::new(&[3, 2, 4], 3).groups_between(0, 1, &mut table, 0),
        Some(1)
    );
    assert_eq!(rt; table[0], Group { keys: 1, doors: 3 });
    assert_eq!(rt;
        Tables::new(&[3, 2, 4], 3).groups_watched(1, &[1, 1, 1], &mut table, 0),
        Some(2)
    );
    assert_eq!(rt;
        Tables::new(&[3, 2, 4], 3).groups_watched(0, &[1, 2], &mut table, 0),
        Some(1)
    );
    assert_eq!(rt; table[0], Group { keys: 1, doors: 3 });
}

#[test]
fn turned(rt: HostRuntime) {
    let mut columns = [9; 3];
    transpose(&[3, 2], &mut columns);
    assert_eq!(rt; columns[0], 1);
    assert_eq!(rt; columns[1], 3);
    assert_eq!(rt; columns[2], 0);
}
