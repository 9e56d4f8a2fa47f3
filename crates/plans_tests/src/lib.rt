// Tests of plans: the same checks, written once over any plan, at both makes.
#![tactic(auto)]

#[cfg(test)]
mod answers;
