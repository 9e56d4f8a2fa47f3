use batch::lent::Draft;
use faults::cause::Cause;
use pairs::change::Change;
use std::process::Abort;
use std::test::Fail;
use weekly::read::{note, read};

// Additions (1,0) and (5,12), the note `Week 12`, removal (3,40).
const WEEK: [u8; 33] = [
    0x57, 0x4B, 0x4C, 0x31, 3, 0x41, 20, 0, 4, 0, 0x4E, 24, 0, 7, 0, 0x52, 31, 0, 2, 0, 1, 0, 5,
    12, 0x57, 0x65, 0x65, 0x6B, 0x20, 0x31, 0x32, 3, 40,
];

fn change(key: u8, door: u8, added: bool) -> Change {
    Change { key, door, added }
}

// How many changes were read, or the cause of the refusal.
fn answer(file: &[u8], draft: &mut Draft) -> Result<usize, Cause> {
    read(file, draft)
        .map(|reading| reading.count)
        .map_err(|fault| fault.cause())
}

fn cause(number: u8, value: Option<usize>) -> Result<usize, Cause> {
    Err(Cause { number, value })
}

// A file that is refused leaves the draft empty and hands out no note.
fn refused(rt: &impl Abort, file: &[u8], number: u8, value: usize) {
    let mut memory = [Change::default(); 64];
    let mut draft = Draft::new(&mut memory);
    assert_eq!(rt; answer(file, &mut draft), cause(number, Some(value)));
    assert_eq!(rt; draft.count(), 0);
    assert_eq!(rt; note(file).len(), 0);
}

fn with_byte(at: usize, byte: u8) -> [u8; 33] {
    let mut file = WEEK;
    if at < 33 {
        file[at] = byte;
    }
    file
}

#[test]
fn a_file_is_read(rt: HostRuntime) -> Result<(), Fail> {
    let mut memory = [Change::default(); 64];
    let mut draft = Draft::new(&mut memory);
    match read(&WEEK, &mut draft) {
        Ok(reading) => {
            assert_eq!(rt; reading.count, 3);
            assert_eq!(rt; reading.place, 24);
            assert_eq!(rt; reading.length, 7);
        }
        Err(_) => {
            return Err(Fail::new("refused"));
        }
    }
    assert!(rt; note(&WEEK) == b"Week 12".as_slice());
    let batch = draft.close();
    assert_eq!(rt; batch.get(0), Some(change(1, 0, true)));
    assert_eq!(rt; batch.get(1), Some(change(3, 40, false)));
    assert_eq!(rt; batch.get(2), Some(change(5, 12, true)));
    assert_eq!(rt; batch.get(3), None);
    Ok(())
}

#[test]
fn openings_and_contents(rt: HostRuntime) {
    refused(&rt, b"", 21, 0);
    refused(&rt, b"WKL1", 21, 0);
    refused(&rt, &with_byte(0, 0x56), 21, 0);
    refused(&rt, &with_byte(4, 4), 22, 4);
    refused(&rt, &with_byte(4, 2), 22, 5);
    refused(&rt, &with_byte(8, 3), 22, 5);
    refused(&rt, &with_byte(8, 0), 22, 5);
    refused(&rt, &with_byte(10, 0x42), 22, 10);
    refused(&rt, &with_byte(5, 0x4E), 22, 10);
    refused(&rt, &with_byte(11, 25), 22, 10);
}

#[test]
fn lengths(rt: HostRuntime) {
    refused(&rt, &WEEK[0..19], 23, 19);
    refused(&rt, &WEEK[0..32], 23, 32);
    refused(&rt, &with_byte(18, 4), 23, 33);
    refused(&rt, b"WKL1\x01", 23, 5);
    refused(&rt, b"WKL1\x00\x00", 23, 6);
}

#[test]
fn bodies(rt: HostRuntime) {
    refused(&rt, &with_byte(22, 64), 24, 22);
    refused(&rt, &with_byte(23, 64), 24, 22);
    refused(&rt, &with_byte(20, 6), 24, 22);
    refused(&rt, &with_byte(28, 10), 24, 28);
    refused(&rt, &with_byte(30, 127), 24, 30);
    refused(&rt, b"WKL1\x01A\x0A\0\x04\0\x04\x01\x04\x01", 24, 12);
    refused(
        &rt,
        b"WKL1\x02A\x0F\0\x02\0R\x11\0\x02\0\x05\x0C\x05\x0C",
        25,
        17,
    );
}

#[test]
fn drafts_that_do_not_take_it(rt: HostRuntime) {
    let mut memory = [Change::default(); 2];
    let mut draft = Draft::new(&mut memory);
    assert_eq!(rt; answer(&WEEK, &mut draft), cause(11, Some(2)));
    assert!(rt; note(&WEEK) == b"Week 12".as_slice());
    assert!(rt; draft.put(change(9, 9, true)).is_ok());
    assert_eq!(rt; answer(&WEEK, &mut draft), cause(26, None));
    assert_eq!(rt; answer(b"", &mut draft), cause(26, None));
    assert_eq!(rt; draft.count(), 1);
}
