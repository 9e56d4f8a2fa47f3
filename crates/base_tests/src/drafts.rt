use batch::lent::Draft;
use faults::cause::Cause;
use pairs::change::Change;

fn change(key: u8, door: u8, added: bool) -> Change {
    Change { key, door, added }
}

// The cause for which a put is refused, or none.
fn refusal(draft: &mut Draft, c: Change) -> Option<Cause> {
    draft.put(c).err().map(|fault| fault.cause())
}

fn cause(number: u8, value: Option<usize>) -> Option<Cause> {
    Some(Cause { number, value })
}

#[test]
fn changes_stand_ascending(rt: HostRuntime) {
    let mut memory = [change(9, 9, false); 4];
    let mut draft = Draft::new(&mut memory);
    assert_eq!(rt; refusal(&mut draft, change(5, 1, true)), None);
    assert_eq!(rt; refusal(&mut draft, change(0, 63, false)), None);
    assert_eq!(rt; refusal(&mut draft, change(5, 0, false)), None);
    let batch = draft.close();
    assert_eq!(rt; batch.count(), 3);
    assert_eq!(rt; batch.get(0), Some(change(0, 63, false)));
    assert_eq!(rt; batch.get(2), Some(change(5, 1, true)));
    assert_eq!(rt; batch.get(3), None);
    assert_eq!(rt; batch.changes().len(), 3);
    assert_eq!(rt; memory[3], change(9, 9, false));
}

#[test]
fn refusals_come_in_order(rt: HostRuntime) {
    let mut memory = [change(0, 0, false); 2];
    let mut draft = Draft::new(&mut memory);
    assert_eq!(rt; refusal(&mut draft, change(64, 0, true)), cause(1, None));
    assert_eq!(rt; refusal(&mut draft, change(0, 64, true)), cause(1, None));
    assert_eq!(rt; refusal(&mut draft, change(3, 3, true)), None);
    assert_eq!(rt; refusal(&mut draft, change(7, 0, true)), None);
    assert_eq!(rt;
        refusal(&mut draft, change(7, 0, false)),
        cause(10, Some(1))
    );
    assert_eq!(rt; refusal(&mut draft, change(3, 3, true)), cause(10, Some(0)));
    assert_eq!(rt; refusal(&mut draft, change(4, 4, true)), cause(11, Some(2)));
    assert_eq!(rt; draft.count(), 2);
}

#[test]
fn capacity_is_at_most_64(rt: HostRuntime) {
    let mut memory = [change(0, 0, false); 65];
    let mut draft = Draft::new(&mut memory);
    for door in 0..64 {
        assert!(rt; draft.put(change(1, door, true)).is_ok());
    }
    assert_eq!(rt; draft.capacity(), 64);
    assert_eq!(rt;
        refusal(&mut draft, change(2, 0, true)),
        cause(11, Some(64))
    );
}
