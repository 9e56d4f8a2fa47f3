// Groups as records of the ascending table; what a group of a plan is, the ascending list of a plan's groups, and what holds of them.
#![tactic(auto)]

pub mod group;
pub mod theorems;
