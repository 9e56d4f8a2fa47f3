use groups::group::Group;
use search::tables::Tables;

#[test]
fn watched(rt: HostRuntime) {
    let mut table = [Group::default(); 4];
    let tables = Tables::new(&[3, 2, 4], 3);
    assert_eq!(rt; tables.groups_watched(1, &[1; 64], &mut table, 0), Some(2));
    let mut watch = [0; 64];
    watch[0] = 1;
    watch[1] = 2;
    assert_eq!(rt; tables.groups_watched(0, &watch, &mut table, 0), Some(1));
    assert_eq!(rt; table[0], Group { keys: 1, doors: 3 });
}

#[test]
fn rows_and_columns(rt: HostRuntime) {
    let tables = Tables::new(&[3, 6], 2);
    let rows = tables.rows();
    assert!(rt; rows.len() == 2);
    assert_eq!(rt; rows[1], 6);
    let columns = tables.columns();
    assert!(rt; columns.len() == 2);
    assert_eq!(rt; columns[0], 1);
    assert_eq!(rt; columns[1], 3);
    let turned = tables.turned();
    let rows = turned.rows();
    assert!(rt; rows.len() == 2);
    assert_eq!(rt; rows[0], 1);
    let columns = turned.columns();
    assert!(rt; columns.len() == 2);
    assert_eq!(rt; columns[0], 3);
    assert_eq!(rt; columns[1], 2);
}
