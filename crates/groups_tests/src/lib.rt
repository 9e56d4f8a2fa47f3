// Tests of the search for groups and of the difference of two plans.
#![tactic(auto)]

#[cfg(test)]
mod differences;
#[cfg(test)]
mod searches;
#[cfg(test)]
mod tables;
#[cfg(test)]
mod two_plans;

#[cfg(test)]
use groups::group::Group;

// The group of these keys and doors.
#[cfg(test)]
fn group(keys: u64, doors: u64) -> Group {
    Group { keys, doors }
}
