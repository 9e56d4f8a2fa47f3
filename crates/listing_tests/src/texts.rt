ghost use Rattle.std.specs.Prelude.{◌≤◌};

use faults::draft::DraftFault;
use faults::intake::{IntakeFault, Layer};
use faults::number::NumberFault;
use faults::suite::SuiteFault;
use faults::weekly::FileFault;
use groups::group::Group;
use listing::line::Line;
use listing::lines::{bad_size, booked, cut, lapsed_group, new_group, refused};
use std::process::Abort;

// No line is longer than 48 bytes, and a caller can rely on it.
fn length(line: Line) -> usize
    ensures { result ≤ 48 }
{
    line.bytes().len()
}

fn reads(rt: &impl Abort, line: Line, text: &[u8]) {
    assert!(rt; line.bytes() == text);
}

#[test]
fn counts_are_decimal(rt: HostRuntime) {
    reads(&rt, booked(1, 0), b"ok 1 0\n");
    reads(&rt, booked(9, 10), b"ok 9 10\n");
    reads(&rt, booked(65536, 4096), b"ok 65536 4096\n");
    reads(
        &rt,
        booked(usize::MAX, usize::MAX),
        b"ok 18446744073709551615 18446744073709551615\n",
    );
}

#[test]
fn masks_are_hexadecimal(rt: HostRuntime) {
    let some = Group { keys: 2, doors: 1 };
    reads(
        &rt,
        new_group(some),
        b"+ 0000000000000002 0000000000000001\n",
    );
    reads(
        &rt,
        lapsed_group(some),
        b"- 0000000000000002 0000000000000001\n",
    );
    let all = Group {
        keys: 0,
        doors: u64::MAX,
    };
    reads(
        &rt,
        lapsed_group(all),
        b"- 0000000000000000 ffffffffffffffff\n",
    );
    let mixed = Group {
        keys: 0xdeadbeef,
        doors: 0x0123456789abcdef,
    };
    reads(
        &rt,
        new_group(mixed),
        b"+ 00000000deadbeef 0123456789abcdef\n",
    );
}

#[test]
fn refusals_name_their_layer(rt: HostRuntime) {
    let file = IntakeFault::from(FileFault::Opening);
    assert_eq!(rt; file.layer(), Layer::File);
    reads(&rt, refused(&file), b"no file 21 0\n");
    let place = IntakeFault::from(FileFault::Body { place: 24 });
    reads(&rt, refused(&place), b"no file 24 24\n");
    let full = IntakeFault::from(DraftFault::Full { capacity: 2 });
    assert_eq!(rt; full.layer(), Layer::Draft);
    reads(&rt, refused(&full), b"no draft 11 2\n");
    let number = IntakeFault::from(DraftFault::Number(NumberFault::TooHigh));
    reads(&rt, refused(&number), b"no draft 1 0\n");
}

#[test]
fn refusals_tell_what_is_returned(rt: HostRuntime) {
    let absent = IntakeFault::from(SuiteFault::Absent { index: 0 });
    assert_eq!(rt; absent.layer(), Layer::Suite);
    reads(&rt, refused(&absent), b"no suite 16 0\n");
    let stands = IntakeFault::from(SuiteFault::Stands { index: usize::MAX });
    reads(&rt, refused(&stands), b"no suite 15 18446744073709551615\n");
    let full = IntakeFault::from(SuiteFault::PlanFull);
    reads(&rt, refused(&full), b"no suite 17 0\n");
}

#[test]
fn ends_of_the_input(rt: HostRuntime) {
    reads(&rt, bad_size(), b"size\n");
    reads(&rt, cut(), b"cut\n");
}

#[test]
fn lines_are_short(rt: HostRuntime) {
    assert_eq!(rt; length(booked(usize::MAX, usize::MAX)), 45);
    assert_eq!(rt; length(cut()), 4);
}
