// The numbers in a set, one after another.
ghost use Rattle.std.specs.Prelude.{◌≡◌, ◌<◌, ◌^◌};
ghost use Rattle.std.specs.Iterator.{YieldsFirst, item_count};
ghost use Rattle.masks.specs.Members.{members_of};

// The numbers of a set, ascending: `left` has those that are still to come.
#[derive(Drop)]
pub struct Members {
    pub(crate) left: u64,
    ghost fits: { left < 2 ^ 64 },
}

impl Members {
    // The numbers in the set x, ascending.
    pub fn of(x: u64) -> Members
        ensures { result.left ≡ x }
    {
        Members { left: x }
    }

    // The set of the numbers that are still to come.
    pub fn set(&self) -> u64
        ensures { result ≡ self.now.left }
    {
        self.left
    }
}

impl Iterator for Members {
    type Item = usize;

    ghost next_gives = { YieldsFirst (λ m. members_of m.left) };

    ghost remaining = { item_count (λ m. members_of m.left) };

    fn next(&mut self) -> Option<usize> {
        let Members { left } = self;
        if *left == 0 {
            return None;
        }
        let lowest = left.trailing_zeros() as usize;
        *left &= *left - 1;
        Some(lowest)
    }
}

#[cfg(test)]
mod tests {
    use super::*;

    #[test]
    fn none(rt: HostRuntime) {
        assert_eq!(rt; Members::of(0).next(), None);
    }

    #[test]
    fn ascending(rt: HostRuntime) {
        let mut rest = Members::of(0x8000_0000_0000_0105);
        assert_eq!(rt; rest.next(), Some(0));
        assert_eq!(rt; rest.next(), Some(2));
        assert_eq!(rt; rest.set(), 0x8000_0000_0000_0100);
        assert_eq!(rt; rest.next(), Some(8));
        assert_eq!(rt; rest.next(), Some(63));
        assert_eq!(rt; rest.set(), 0);
        assert_eq!(rt; rest.next(), None);
    }

    #[test]
    fn all(rt: HostRuntime) {
        assert_eq!(rt; Members::of(u64::MAX).last(), Some(63));
        assert_eq!(rt; Members::of(u64::MAX).nth(32), Some(32));
    }
}
