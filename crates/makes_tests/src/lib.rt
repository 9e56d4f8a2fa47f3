// Tests of the makes of plans and registers: the same checks, written once over any plan and any register, at every make.
#![tactic(auto)]

#[cfg(test)]
mod combinations;
#[cfg(test)]
mod registers_answer;
