// What holds of the digits and the lines of the listing, as theorems.
ghost use Rattle.listing.specs.Theorems.{DecimalsTell, HexadecimalsTell, LinesTell, ShortLines};

// Decimal digits give back their number.
pub fn decimals_tell() -> u8
    ensures { DecimalsTell }
{
    0
}

// Hexadecimal digits give back their mask.
pub fn hexadecimals_tell() -> u8
    ensures { HexadecimalsTell }
{
    0
}

// Every line fits.
pub fn short_lines() -> u8
    ensures { ShortLines }
{
    0
}

// Two lines of a kind are the same only where they say the same.
pub fn lines_tell() -> u8
    ensures { LinesTell }
{
    0
}
