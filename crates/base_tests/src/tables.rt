ghost use Rattle.std.specs.Prelude.{nat_lt};
ghost use Rattle.std.proofs.Common.{rules};

use pairs::pair::Pair;
use table::Record;

// A record with no order of its own. In its tables the higher ones come first.
#[derive(Clone, Copy, PartialEq, Eq, Debug)]
struct Level {
    height: u8,
}

impl Record for Level {
    ghost before = { λ a b. nat_lt b.height a.height };

    fn less(&self, other: &Level) -> bool {
        other.height < self.height
    }

    ghost order = { record { irreflexive = Prim.search rules; transitive = Prim.search rules; total = Prim.search rules } };
}

fn at_height(height: u8) -> Level {
    Level { height }
}

fn pair(key: u8, door: u8) -> Pair {
    Pair { key, door }
}

#[test]
fn finds_the_place(rt: HostRuntime) {
    let rows = [pair(0, 3), pair(2, 0), pair(2, 5), pair(9, 9)];
    assert_eq!(rt; table::find(&rows, 3, &pair(0, 3)), Ok(0));
    assert_eq!(rt; table::find(&rows, 3, &pair(2, 5)), Ok(2));
    assert_eq!(rt; table::find(&rows, 3, &pair(1, 63)), Err(1));
    assert_eq!(rt; table::find(&rows, 3, &pair(2, 6)), Err(3));
    assert_eq!(rt; table::find(&rows, 3, &pair(9, 9)), Err(3));
    assert_eq!(rt; table::find(&rows, 100, &pair(9, 9)), Ok(3));
    assert_eq!(rt; table::find(&rows, 0, &pair(0, 3)), Err(0));
}

#[test]
fn puts_in_and_takes_out(rt: HostRuntime) {
    let mut rows = [pair(0, 3), pair(2, 0), pair(7, 7), pair(9, 9)];
    assert!(rt; table::put(&mut rows, 2, 1, pair(1, 1)));
    assert_eq!(rt; rows, [pair(0, 3), pair(1, 1), pair(2, 0), pair(9, 9)]);
    assert!(rt; table::take_out(&mut rows, 3, 0));
    assert_eq!(rt; rows, [pair(1, 1), pair(2, 0), pair(2, 0), pair(9, 9)]);
    assert!(rt; !table::put(&mut rows, 4, 0, pair(0, 0)));
    assert!(rt; !table::put(&mut rows, 2, 3, pair(0, 0)));
    assert!(rt; !table::take_out(&mut rows, 2, 2));
    assert!(rt; !table::take_out(&mut rows, 5, 0));
    assert_eq!(rt; rows, [pair(1, 1), pair(2, 0), pair(2, 0), pair(9, 9)]);
}

// A table goes by the order that its records name, and asks for no other.
#[test]
fn goes_by_the_order_named(rt: HostRuntime) {
    let mut rows = [at_height(9), at_height(5), at_height(2), at_height(0)];
    assert_eq!(rt; table::find(&rows, 3, &at_height(9)), Ok(0));
    assert_eq!(rt; table::find(&rows, 3, &at_height(2)), Ok(2));
    assert_eq!(rt; table::find(&rows, 3, &at_height(7)), Err(1));
    assert!(rt; table::put(&mut rows, 3, 1, at_height(7)));
    assert_eq!(rt;
        rows,
        [at_height(9), at_height(7), at_height(5), at_height(2)]
    );
}
