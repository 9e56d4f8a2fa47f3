// Worked examples of plans and of their groups, as one theorem.
#![tactic(auto)]

ghost use Rattle.examples.specs.Examples.{Examples};

// Each plan has the groups that the example gives, and each batch brings and ends those that it gives.
pub fn worked_examples() -> u8
    ensures { Examples }
{
    0
}
