// Why a call was turned down, as the table of causes has it: the number of the cause, and what is returned with it. The number is the table's
// own, over the faults of all layers, which are enums.
ghost use Rattle.std.specs.Prelude.{◌++◌, ◌∷◌, Some, decimal, unwrap_or};

use std::fmt;

#[derive(Clone, Copy, PartialEq, Eq, Debug)]
pub struct Cause {
    pub number: u8,
    pub value: Option<usize>,
}

// The number and the value, 0 where nothing is returned with it.
impl fmt::Display for Cause {
    ghost output = { λ c. Some (decimal c.number ++ (32 ∷ decimal (unwrap_or c.value 0))) };

    fn fmt<W: fmt::Write>(&self, f: &mut fmt::Formatter<W>) -> fmt::Result {
        let number = self.number;
        let value = self.value.unwrap_or(0);
        write!(f, "{number} {value}")
    }
}
