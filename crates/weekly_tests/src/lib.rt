// Tests of the weekly file: every refusal with its place, the note, the writer and the round trip.
#![tactic(auto)]

#[cfg(test)]
mod reads;
#[cfg(test)]
mod writes;
