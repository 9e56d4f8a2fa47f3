// Tests of the lines of the listing, byte by byte.
#![tactic(auto)]

#[cfg(test)]
mod texts;
