// The laws over any list of calls, as theorems.
ghost use Rattle.ledger.specs.Laws.{AlwaysFollows, GoesOn, NeverOutOfStep, FoundedInStep};

// Plan, register and the copy kept by the lists follow the bookings, whatever the calls.
pub fn always_follows() -> u8
    ensures { AlwaysFollows }
{
    0
}

// Two lists of calls one after the other are as their concatenation.
pub fn goes_on() -> u8
    ensures { GoesOn }
{
    0
}

// Where the register holds the groups of the plan, no booking is refused as out of step.
pub fn never_out_of_step() -> u8
    ensures { NeverOutOfStep }
{
    0
}

// Founding puts the register in step.
pub fn founded_in_step() -> u8
    ensures { FoundedInStep }
{
    0
}
