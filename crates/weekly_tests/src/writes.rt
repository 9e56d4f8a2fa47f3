use batch::lent::Draft;
use faults::cause::Cause;
use pairs::change::Change;
use std::test::Fail;
use weekly::receipt::receipt;
use weekly::write::write;

// The length of the file, or the cause of the refusal.
fn answer(changes: &[Change], note: &[u8], out: &mut [u8]) -> Result<usize, Cause> {
    let mut memory = [Change::default(); 64];
    let mut draft = Draft::new(&mut memory);
    for change in changes {
        let _ = draft.put(*change);
    }
    write(&draft.close(), note, out).map_err(|fault| fault.cause())
}

fn cause(number: u8, value: Option<usize>) -> Result<usize, Cause> {
    Err(Cause { number, value })
}

const CHANGES: [Change; 2] = [
    Change {
        key: 5,
        door: 12,
        added: true,
    },
    Change {
        key: 3,
        door: 40,
        added: false,
    },
];

#[test]
fn the_only_file(rt: HostRuntime) {
    let mut out = [7u8; 28];
    assert_eq!(rt; answer(&CHANGES, b"Hi", &mut out), Ok(26));
    assert!(rt;
        &out == b"WKL1\x03A\x14\0\x02\0N\x16\0\x02\0R\x18\0\x02\0\x05\x0CHi\x03\x28\x07\x07"
    );
}

#[test]
fn without_a_body(rt: HostRuntime) {
    let mut out = [7u8; 13];
    assert_eq!(rt; answer(&[], b"", &mut out), Ok(5));
    assert!(rt; &out == b"WKL1\0\x07\x07\x07\x07\x07\x07\x07\x07");
    assert_eq!(rt; answer(&[], b"Hi", &mut out), Ok(12));
    assert!(rt; &out == b"WKL1\x01N\x0A\0\x02\0Hi\x07");
}

#[test]
fn refusals_leave_the_output(rt: HostRuntime) {
    let mut out = [7u8; 25];
    assert_eq!(rt; answer(&CHANGES, b"Hi", &mut out), cause(28, None));
    assert_eq!(rt;
        answer(&CHANGES, &[32; 201], &mut out),
        cause(27, Some(200))
    );
    assert_eq!(rt; answer(&CHANGES, b"H\x1F", &mut out), cause(27, Some(1)));
    assert_eq!(rt; answer(&CHANGES, b"\x7F", &mut out), cause(27, Some(0)));
    assert_eq!(rt; answer(&CHANGES, &[32; 200], &mut out), cause(28, None));
    assert!(rt; out == [7; 25]);
}

#[test]
fn a_receipt_has_the_files_bytes(rt: HostRuntime) -> Result<(), Fail> {
    let file = b"WKL1\x03A\x14\0\x02\0N\x16\0\x02\0R\x18\0\x02\0\x05\x0CHi\x03\x28";
    let mut out = [7u8; 26];
    match receipt(file, &mut out) {
        Ok(reading) => assert_eq!(rt; reading.count, 2),
        Err(_) => {
            return Err(Fail::new("refused"));
        }
    }
    assert!(rt; &out == file);
    let mut short = [7u8; 25];
    match receipt(file, &mut short) {
        Ok(_) => Err(Fail::new("taken")),
        Err(fault) => {
            assert_eq!(rt; fault.cause().number, 28);
            Ok(())
        },
    }
}
