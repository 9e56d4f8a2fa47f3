// Sets of the numbers 0 to 63, each a 64-bit mask: number i is in the set where bit i, of weight 2^i, is 1.
#![tactic(auto)]

ghost use Rattle.std.specs.Prelude.{◌≡◌};
ghost use Rattle.masks.specs.Laws.{LawsOfSets};
ghost use Rattle.masks.specs.Masks.{has_bit, with_answer, parted, first_set, is_within};

pub mod members;

// Whether i is in the set x. A number above 63 is in none.
pub fn has(x: u64, i: u8) -> bool
    ensures { result ≡ has_bit x i }
{
    i < 64 && (x >> i) & 1 == 1
}

// The set x with i in it, or None where i is above 63.
pub fn with(x: u64, i: u8) -> Option<u64>
    ensures { result ≡ with_answer x i }
{
    if i < 64 { Some(x | (1 << i)) } else { None }
}

// The set x without i.
pub fn without(x: u64, i: u8) -> u64
    ensures { result ≡ parted x i }
{
    if i < 64 { x & !(1 << i) } else { x }
}

// The set of all numbers below n: all 64 where n is 64 or more.
pub fn first(n: u8) -> u64
    ensures { result ≡ first_set n }
{
    if n < 64 { (1 << n) - 1 } else { u64::MAX }
}

// Whether x is a part of y: each number in x is in y too.
pub fn within(x: u64, y: u64) -> bool
    ensures { result ≡ is_within x y }
{
    x & y == x
}

// What holds of joining, parting, sharing and comparing sets, as a theorem.
pub fn laws_hold() -> u8
    ensures { LawsOfSets }
{
    0
}

#[cfg(test)]
mod tests {
    use super::*;

    #[test]
    fn edges(rt: HostRuntime) {
        assert_eq!(rt; with(0, 0), Some(1));
        assert_eq!(rt; with(1, 63), Some(0x8000_0000_0000_0001));
        assert_eq!(rt; with(1, 64), None);
        assert_eq!(rt; with(u64::MAX, 255), None);
        assert!(rt; has(u64::MAX, 63) && !has(u64::MAX, 64) && !has(u64::MAX, 255));
    }

    #[test]
    fn full(rt: HostRuntime) {
        assert_eq!(rt; with(u64::MAX, 63), Some(u64::MAX));
        assert_eq!(rt; without(u64::MAX, 0), 0xFFFF_FFFF_FFFF_FFFE);
        assert_eq!(rt; without(u64::MAX, 63), first(63));
        assert_eq!(rt; without(u64::MAX, 64), u64::MAX);
        assert_eq!(rt; without(5, 1), 5);
    }

    #[test]
    fn parts(rt: HostRuntime) {
        assert_eq!(rt; first(0), 0);
        assert_eq!(rt; first(3), 7);
        assert_eq!(rt; first(64), u64::MAX);
        assert_eq!(rt; first(255), u64::MAX);
        assert!(rt; within(0, 0) && within(5, 7) && within(u64::MAX, u64::MAX) && !within(7, 5));
    }
}
