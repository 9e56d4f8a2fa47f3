// What holds of any register, as a theorem.
ghost use Rattle.registers.specs.Theorems.{PlacesSuffice};

// Where the places suffice, entering several records leaves the union, and striking several the difference.
pub fn places_suffice() -> u8
    ensures { PlacesSuffice }
{
    0
}
