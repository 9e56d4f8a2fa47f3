use faults::cause::Cause;
use faults::number::NumberFault;
use numbers::number::{DoorNo, KeyNo, Sizes};

// The byte of a key or door number, or the cause for which there is none.
fn byte<N: TryFrom<u8, Error = NumberFault> + Into<u8>>(value: u8) -> Result<u8, Cause> {
    N::try_from(value)
        .map(|number| number.into())
        .map_err(|fault| fault.cause())
}

fn sizes(keys: u8, doors: u8) -> Result<(u8, u8), Cause> {
    Sizes::new(keys, doors)
        .map(|sizes| (sizes.keys(), sizes.doors()))
        .map_err(|fault| fault.cause())
}

const TOO_HIGH: Cause = Cause {
    number: 1,
    value: None,
};

const OUTSIDE: Cause = Cause {
    number: 2,
    value: None,
};

#[test]
fn numbers_end_at_63(rt: HostRuntime) {
    assert_eq!(rt; byte::<KeyNo>(0), Ok(0));
    assert_eq!(rt; byte::<KeyNo>(63), Ok(63));
    assert_eq!(rt; byte::<KeyNo>(64), Err(TOO_HIGH));
    assert_eq!(rt; byte::<KeyNo>(255), Err(TOO_HIGH));
    assert_eq!(rt; byte::<DoorNo>(63), Ok(63));
    assert_eq!(rt; byte::<DoorNo>(64), Err(TOO_HIGH));
}

#[test]
fn sizes_are_1_to_64(rt: HostRuntime) {
    assert_eq!(rt; sizes(1, 64), Ok((1, 64)));
    assert_eq!(rt; sizes(64, 1), Ok((64, 1)));
    assert_eq!(rt; sizes(0, 1), Err(OUTSIDE));
    assert_eq!(rt; sizes(1, 0), Err(OUTSIDE));
    assert_eq!(rt; sizes(65, 64), Err(OUTSIDE));
    assert_eq!(rt; sizes(64, 65), Err(OUTSIDE));
}
